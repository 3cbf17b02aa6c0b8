//! Numbers as lower-case hexadecimal digits of a fixed width, and session ids as 32 of them.

ghost use Rattle.std.specs.Prelude.{◌≡◌, ◌≢◌, ◌<◌, ◌≤◌, ◌^◌, ℕ, IfSome, IfNone, length};
ghost use Rattle.std.specs.Str.{IsAscii};
ghost use Rattle.terms.specs.Hexadecimal.{hex_digits};
ghost use Rattle.terms.specs.Hexadecimal as hexadecimal;
ghost use Rattle.terms.specs.Ids.{id_digits};

/// Writes the number's last digits over the text, one for each of its bytes.
pub fn write_digits(number: u128, text: &mut [u8])
    ensures { text.new ≡ hex_digits (length text.old) number }
{
    let mut rest = number;
    let mut at = text.len();
    'digits: while at > 0 {
        at -= 1;
        text[at] = hex_digit((rest % 16) as u8);
        rest /= 16;
    }
}

/// The character of a digit.
fn hex_digit(digit: u8) -> u8
    requires { digit < 16 }
    ensures { result ≡ hexadecimal.hex_digit digit }
{
    if digit < 10 { digit + 48 } else { digit + 87 }
}

/// The number that has these digits, at most 32 of them. Upper-case letters are no digits.
pub fn read_digits(text: &[u8]) -> Option<u128>
    requires { length text.now ≤ 32 }
    ensures some { IfSome result (λ number. text.now ≡ hex_digits (length text.now) number) }
    ensures fits { IfSome result (λ number. number < 16 ^ length text.now) }
    ensures none { IfNone result ((number : ℕ) → text.now ≢ hex_digits (length text.now) number) }
{
    let mut number: u128 = 0;
    for character in text {
        number = number * 16 + u128::from(digit_of(*character)?);
    }
    Some(number)
}

/// The digit that has this character.
fn digit_of(character: u8) -> Option<u8>
    ensures some { IfSome result (λ digit. character ≡ hexadecimal.hex_digit digit) }
    ensures fits { IfSome result (λ digit. digit < 16) }
    ensures none { IfNone result ((digit : ℕ)
        → digit < 16 → character ≢ hexadecimal.hex_digit digit) }
{
    match character {
        b'0'..=b'9' => Some(character - b'0'),
        b'a'..=b'f' => Some(character - b'a' + 10),
        _ => None,
    }
}

/// Two numbers that fit the width differ in their digits. It has no effect.
pub fn digits_differ()
    ensures { (width m n : ℕ)
        → m < 16 ^ width → n < 16 ^ width → hex_digits width m ≡ hex_digits width n → m ≡ n }
{}

/// The digits of an id, which are ASCII.
pub fn id_text(id: u128) -> [u8; 32]
    ensures digits { result ≡ id_digits id }
    ensures ascii { IsAscii result }
{
    let mut text = [0; 32];
    write_digits(id, &mut text);
    text
}

/// The id that has these digits. Upper-case letters are no digits of an id.
pub fn read_id(text: &str) -> Option<u128>
    ensures some { IfSome result (λ id. text.now ≡ id_digits id) }
    ensures none { IfNone result ((id : ℕ) → text.now ≢ id_digits id) }
{
    if text.len() != 32 {
        return None;
    }
    read_digits(text.as_bytes())
}

/// Two ids have different digits. It has no effect.
pub fn ids_differ()
    ensures { (m n : ℕ) → m < 2 ^ 128 → n < 2 ^ 128 → id_digits m ≡ id_digits n → m ≡ n }
{
    digits_differ();
}
