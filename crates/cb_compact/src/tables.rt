//! The search for two sets to join, by a table of live positions.

ghost use Rattle.std.specs.Prelude.{◌≡◌, ℕ, ◌-◌, ◌^◌, ◌<◌, ◌≤◌, true, false, IfOk, Some, length, slice_get, slice_index_or, bit_and};
ghost use Rattle.std.specs.Int.{bit_at};
ghost use Rattle.cb_compact.specs.declared.candidates.Candidate.{Candidate};
ghost use Rattle.cb_compact.specs.Candidates.{CanMatch};
ghost use Rattle.cb_compact.specs.Tables.{AreBitsWithin, AreMarked, AreMasks, AreTables, IsFilled, IsTable};

use crate::candidates::Candidate;
use cb_types::NoMemory;
use std::alloc::Global;

/// The table of the candidates of one code and length, with an entry for each set of positions, as
/// the number that has their bits: it is marked where a candidate's live positions all lie among
/// these.
#[derive(Drop)]
pub(crate) struct Table {
    pub k: u32,
    pub r: u32,
    pub pages: u32,
    pub marks: Vec<bool>,
}

/// Whether an entry with one position less than this one's is marked.
fn has_smaller(marks: &[bool], k: u32, mask: usize) -> bool
    requires mask { mask < length marks.now }
    requires few { k ≤ 16 }
    ensures { result ≡ false → (bit : ℕ) → bit < k → bit_at mask bit ≡ 1
        → slice_index_or marks.now (mask - 2 ^ bit) false ≡ false }
{
    for place in 0..k {
        let bit = 1usize << place;
        if mask & bit != 0 && marks[mask - bit] {
            return true;
        }
    }
    false
}

/// Marks each entry that has a marked one within it. Looks at `k` entries for each.
fn spread(marks: &mut [bool], k: u32)
    requires size { length marks.old ≡ 2 ^ k }
    requires few { k ≤ 16 }
    ensures size { length marks.new ≡ 2 ^ k }
    ensures marked { (live mask : ℕ) → mask < 2 ^ k → AreBitsWithin live mask
        → slice_index_or marks.old live false ≡ true → slice_index_or marks.new mask false ≡ true }
{
    for mask in 0..marks.len() {
        if has_smaller(marks, k, mask) {
            marks[mask] = true;
        }
    }
}

/// Marks the live positions of the candidates of a code and length.
fn mark(marks: &mut [bool], found: &[Candidate], k: u32, r: u32, pages: u32)
    requires size { length marks.old ≡ 2 ^ k }
    requires masks { AreMasks found.now }
    ensures size { length marks.new ≡ 2 ^ k }
    ensures marked { AreMarked found.now k r pages marks.new }
{
    for candidate in found {
        if candidate.k == k && candidate.r == r && candidate.pages == pages {
            marks[candidate.live as usize] = true;
        }
    }
}

/// Marks the entries of a table of a code and length that have a candidate's live positions within
/// them.
fn fill(marks: &mut [bool], found: &[Candidate], k: u32, r: u32, pages: u32)
    requires size { length marks.old ≡ 2 ^ k }
    requires masks { AreMasks found.now }
    requires few { k ≤ 16 }
    ensures size { length marks.new ≡ 2 ^ k }
    ensures marked { IsFilled found.now k r pages marks.new }
{
    mark(marks, found, k, r, pages);
    spread(marks, k);
}

/// The table of a code and length.
fn table_of(
    alloc: Global,
    found: &[Candidate],
    k: u32,
    r: u32,
    pages: u32,
) -> Result<Table, NoMemory>
    requires masks { AreMasks found.now }
    requires few { k ≤ 16 }
    ensures { IfOk result (IsTable found.now) }
{
    let mut marks = vec![in alloc; false; 1usize << k]?;
    fill(&mut marks, found, k, r, pages);
    Ok(Table { k, r, pages, marks })
}

/// Whether there is a table of this code and length.
fn has_table(tables: &[Table], k: u32, r: u32, pages: u32) -> bool {
    tables.iter().any(|table| table.k == k && table.r == r && table.pages == pages)
}

/// Whether a table costs less than comparing so many candidates each with each: `k` looks for each
/// entry.
fn is_worth(count: usize, k: u32) -> bool
    requires few { k ≤ 16 }
{
    count.saturating_mul(count) >= (k as usize) << k
}

/// Adds the table of a code and length, where it is worth making and is not there yet.
fn add_table(
    alloc: Global,
    found: &[Candidate],
    tables: &mut Vec<Table>,
    k: u32,
    r: u32,
    pages: u32,
) -> Result<(), NoMemory>
    requires masks { AreMasks found.now }
    requires few { k ≤ 16 }
    requires tables { AreTables found.now tables.old.items }
    ensures { IfOk result (λ _. AreTables found.now tables.new.items) }
{
    if !is_worth(found.len(), k) || has_table(tables, k, r, pages) {
        return Ok(());
    }
    let table = table_of(alloc, found, k, r, pages)?;
    tables.push(table)?;
    Ok(())
}

/// The table of each code and length for which it is worth making.
pub(crate) fn tables_of(alloc: Global, found: &[Candidate]) -> Result<Vec<Table>, NoMemory>
    requires masks { AreMasks found.now }
    ensures { IfOk result (λ tables. AreTables found.now tables.items) }
{
    let mut tables = Vec::new(alloc);
    for candidate in found {
        add_table(
            alloc,
            found,
            &mut tables,
            candidate.k,
            candidate.r,
            candidate.pages,
        )?;
    }
    Ok(tables)
}

/// Whether each candidate of the table's code and length has a live position in common with this
/// one.
fn meets_all(found: &[Candidate], table: &Table, candidate: Candidate) -> bool
    requires table { IsTable found.now table.now }
    requires few { table.now.k ≤ 16 }
    requires live { candidate.live < 2 ^ table.now.k }
    requires masks { AreMasks found.now }
    ensures { result ≡ true → (i : ℕ) (d : Candidate) → slice_get found.now i ≡ Some d
        → d.k ≡ table.now.k → d.r ≡ table.now.r → d.pages ≡ table.now.pages
        → bit_and candidate.live d.live ≡ 0 → ⊥ }
{
    let all = (1usize << table.k) - 1;
    !table.marks[all - candidate.live as usize]
}

/// Whether the table of its code and length shows that no candidate matches this one. Where there
/// is no such table it does not.
pub(crate) fn matches_none(found: &[Candidate], tables: &[Table], place: usize) -> bool
    requires place { place < length found.now }
    requires tables { AreTables found.now tables.now }
    requires masks { AreMasks found.now }
    ensures { result ≡ true → (i : ℕ) (c d : Candidate) → slice_get found.now place ≡ Some c
        → slice_get found.now i ≡ Some d → ¬ (CanMatch c d) }
{
    let candidate = found[place];
    for table in tables {
        if table.k == candidate.k && table.r == candidate.r && table.pages == candidate.pages {
            return meets_all(found, table, candidate);
        }
    }
    false
}
