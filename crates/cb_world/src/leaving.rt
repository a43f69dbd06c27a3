//! The batch that is leaving.

ghost use Rattle.std.specs.Prelude.{◌≡◌, ℕ, ◌<◌, true, false, List, None, Some, ◌++◌, length};
ghost use Rattle.cb_gf256.specs.CodeWord.{IsCodeWord};
ghost use Rattle.cb_gf256.specs.Combination.{AreCombinations};
ghost use Rattle.cb_gf256.specs.Rows.{row_at, HaveLength, HoldBytes};
ghost use Rattle.cb_world.specs.Leaving.{made_of};

use cb_code::{Coeffs, encode_rows};
use cb_gf256::Rows;
use cb_member::Shard;
use std::marker::Model;

/// The pointer word of an object before its batch began to leave.
#[derive(Clone, Copy)]
pub struct Former {
    pub handle: u32,
    pub word: u64,
}

/// The parities of a batch, as many from its begin on as its code has, and the room in which they
/// are made. What the room holds before they are made is no part of the batch.
#[derive(Drop)]
pub struct Parities {
    made: bool,
    rows: Rows,
    // Where the data rows are read that the parities are made of.
    source: Option<Rows>,
}

impl Model for Parities {
    ghost use Rattle.cb_world.specs.Leaving.{ParitiesState};

    ghost Value = { ParitiesState };

    ghost view = { λ a. record { made = a.made; rows = a.rows; source = a.source } };
}

impl Parities {
    /// Parities that are made. Takes no memory.
    pub fn made(rows: Rows) -> Parities
        ensures { result ≡ made_of rows }
    {
        Parities {
            made: true,
            rows,
            source: None,
        }
    }

    /// As many parities as there are rows, which are still to be made: there, of data rows that are
    /// read into the second table. Takes no memory.
    pub fn unmade(rows: Rows, source: Rows) -> Parities
        ensures { result ≡ record { made = false; rows = rows; source = Some source } }
    {
        Parities {
            made: false,
            rows,
            source: Some(source),
        }
    }

    /// Whether they are made.
    pub fn is_made(&self) -> bool
        ensures { result ≡ self.now.made }
    {
        self.made
    }

    /// How many parities there are.
    pub fn count(&self) -> u32
        ensures { result ≡ length self.now.rows }
    {
        self.rows.count()
    }

    /// The parity at a place, once they are made.
    pub fn row(&self, at: u32) -> &[u8]
        requires made { self.now.made ≡ true }
        requires within { at < length self.now.rows }
        ensures { result.now ≡ row_at self.now.rows at }
    {
        self.rows.row(at)
    }

    /// What the room holds at the place of a parity, whether they are made or not.
    pub fn row_in_room(&self, at: u32) -> &[u8]
        requires { at < length self.now.rows }
        ensures { result.now ≡ row_at self.now.rows at }
    {
        self.rows.row(at)
    }

    /// Copies these rows into the room: from here on they are the parities. The table of data rows
    /// is given back. Takes no memory.
    pub fn install(&mut self, rows: &Rows)
        requires count { length rows.now ≡ length self.old.rows }
        requires lengths { (len : ℕ) × HaveLength len rows.now × HaveLength len self.old.rows }
        ensures { self.new ≡ made_of rows.now }
    {
        copy_rows(rows, &mut self.rows);
        self.made = true;
        self.source = None;
    }

    /// Takes the table out in which the data rows are read; `make` puts it back.
    pub fn take_source(&mut self) -> Rows
        requires { (table : List (List ℕ)) × (self.old.source ≡ Some table) }
        ensures source { self.old.source ≡ Some result }
        ensures taken { self.new ≡ record self.old { source = None } }
    {
        self.source.take().unwrap()
    }

    /// Makes the parities of these data rows in the room, and does not mark them as made: until
    /// `mark_made` the batch has none. The data rows are kept. Takes no memory.
    pub fn make(&mut self, c: &Coeffs, source: Rows)
        requires width { HaveLength (length source) c.now }
        requires count { length self.old.rows ≡ length c.now }
        requires lengths { HaveLength (length (row_at source 0)) self.old.rows }
        ensures made { self.new.made ≡ self.old.made }
        ensures source { self.new.source ≡ Some source }
        ensures count { length self.new.rows ≡ length self.old.rows }
        ensures lengths { HaveLength (length (row_at source 0)) self.new.rows }
        ensures word { IsCodeWord (length source) (length c.now) (source ++ self.new.rows) }
        ensures bytes { HoldBytes (source ++ self.new.rows) }
    {
        // That both tables hold bytes is what a proof reads here.
        let _ = c.parities();
        let _ = source.row_len();
        encode_rows(c, &source, &mut self.rows);
        let _ = self.rows.row_len();
        self.source = Some(source);
    }

    /// From here on what the room holds is the parities. The table of data rows is given back.
    pub fn mark_made(&mut self)
        ensures { self.new ≡ made_of self.old.rows }
    {
        self.made = true;
        self.source = None;
    }
}

/// Copies rows over as many rows that are as long.
fn copy_rows(from: &Rows, into: &mut Rows)
    requires count { length from.now ≡ length into.old }
    requires lengths { (len : ℕ) × HaveLength len from.now × HaveLength len into.old }
    ensures { into.new ≡ from.now }
{
    for at in 0..from.count() {
        into.row_mut(at).copy_from_slice(from.row(at));
    }
}

/// The batch that is leaving: the number of its set, the pages of each of its spans and their first
/// frames by position, the words of its objects before the begin, its parities, and by position the
/// shard whose row was put, where one was. What its parities hold before they are made is not seen.
#[derive(Drop)]
pub struct Leaving {
    pub set: u64,
    pub pages: u32,
    pub frames: Vec<u32>,
    pub words: Vec<Former>,
    pub parities: Parities,
    pub shards: Vec<Option<Shard>>,
}

impl Model for Leaving {
    ghost use Rattle.std.specs.Prelude.{length};
    ghost use Rattle.cb_world.specs.Leaving.{LeavingState, AreRoomy, shown_rows};

    ghost Value = { LeavingState };

    ghost view = { λ a. record {
      set = a.set;
      pages = a.pages;
      frames = a.frames.items;
      words = a.words.items;
      made = a.parities.made;
      parities = shown_rows a.parities.made a.parities.rows;
      shards = a.shards.items;
    } };

    ghost invariant = { λ a. AreRoomy a.pages (length a.frames.items) a.parities };
}
