// Numbers as text: told and read.
ghost use Rattle.std.specs.Prelude.{◌≡◌, cond, Some, None, true, length, leb, ◌&&◌};
ghost use Rattle.std.specs.List.{list_all};
ghost use Rattle.std.specs.Char.{is_ascii_digit};
ghost use Rattle.counts_text.specs.Numbers.{is_number, is_number_to, value_of};

// The number that a field is, where it is one and is at most so much.
pub(crate) fn number_in(field: &[u8], most: u32) -> Option<u32>
    ensures { result ≡ cond (is_number_to most field.now) (Some (value_of field.now)) None }
{
    if !is_number(field) {
        return None;
    }
    let value = value_of(field);
    if value <= most { Some(value) } else { None }
}

// Whether a field is 1 to 5 digits.
fn all_digits(field: &[u8]) -> bool
    ensures { result ≡ ((leb 1 (length field.now) && leb (length field.now) 5) && list_all is_ascii_digit field.now) }
{
    (1..=5).contains(&field.len()) && field.iter().all(u8::is_ascii_digit)
}

// Whether a field is a number: 1 to 5 digits, the first of them 0 only where it is alone.
fn is_number(field: &[u8]) -> bool
    ensures { result ≡ is_number field.now }
{
    all_digits(field) && (field.len() == 1 || field[0] != b'0')
}

// The number that a field stands for.
fn value_of(field: &[u8]) -> u32
    requires { is_number field.now ≡ true }
    ensures { result ≡ value_of field.now }
{
    field
        .iter()
        .fold(0, |value, digit| 10 * value + u32::from(digit - b'0'))
}
