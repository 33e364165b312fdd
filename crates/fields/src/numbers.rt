// The number that a field writes.

ghost use Rattle.std.specs.Prelude.{◌≡◌, ℕ, ◌^◌, ◌<◌, ◌≤◌, length, IfSome, MatchOption, ◌≢◌};
ghost use Rattle.fields.specs.Numbers.{number_of, numeral, read_on, shapely};

// The most digits of a number.
pub const MOST_DIGITS: usize = 9;

// Whether a field has one to nine bytes, and no zero before another byte.
fn is_shapely(field: &[u8]) -> bool
    ensures { result ≡ shapely field.now }
{
    (1..=MOST_DIGITS).contains(&field.len()) && (field.len() == 1 || field[0] != b'0')
}

// The number that at most nine digits write.
// Not by the library's `parse`: it would need the bytes as a `str` first, and it takes a plus before the digits. A `char`'s `to_digit` takes a third longer.
fn read_digits(field: &[u8]) -> Option<u32>
    requires { length field.now ≤ 9 }
    ensures value { result ≡ read_on 0 field.now }
    ensures small { IfSome result (λ n. n < 10 ^ 9) }
{
    let mut value = 0;
    for byte in field {
        if !byte.is_ascii_digit() {
            return None;
        }
        value = value * 10 + u32::from(*byte - b'0');
    }
    Some(value)
}

// The number that a field writes in one to nine digits, with no zero before another digit; none where it writes no number.
pub fn parse_number(field: &[u8]) -> Option<u32>
    ensures value { result ≡ number_of field.now }
    ensures written { MatchOption result ((n : ℕ) → n < 10 ^ 9 → field.now ≢ numeral n) (λ n. (n < 10 ^ 9) × (field.now ≡ numeral n)) }
{
    if is_shapely(field) {
        read_digits(field)
    } else {
        None
    }
}
