//! Names of objects.

ghost use Rattle.std.specs.Prelude.{◌≡◌, ◌↔◌, IsTrue};
ghost use Rattle.cb_script.specs.Form.{IsName, IsNameByte};
ghost use Rattle.cb_script.specs.Reading.{number_of_name};

/// The longest name has so many bytes.
const LONGEST_NAME: usize = 16;

/// Whether the word is a name: 1 to 16 lower-case letters and digits.
pub(crate) fn is_name(word: &[u8]) -> bool
    ensures { IsTrue result ↔ IsName word.now }
{
    let is_short = !word.is_empty() && word.len() <= LONGEST_NAME;
    is_short && word.iter().all(is_name_byte)
}

/// The bytes of a name as one number, the first byte lowest: names with one number are one name.
pub(crate) fn name_number(name: &[u8]) -> u128
    requires { IsName name.now }
    ensures { result ≡ number_of_name name.now }
{
    let mut number = 0;
    for i in (0..name.len()).rev() {
        number = number * 256 + u128::from(name[i]);
    }
    number
}

fn is_name_byte(byte: &u8) -> bool
    ensures { IsTrue result ↔ IsNameByte byte.now }
{
    byte.is_ascii_lowercase() || byte.is_ascii_digit()
}
