ghost use Rattle.std.specs.Prelude.{◌≡◌, option_map, bytes_eq};
ghost use Rattle.std.specs.Int.{w16, w32};
ghost use Rattle.first_form.specs.Reading.{after as bytes_after, number_at, counted_at, name_and_code as both_of, head, middle, sizes, tail};

/// What stands before the length of the class's name: the magic number, version 52, a pool of 19 entries, and the tag of
/// the first one, a text (JVM specification 4.1 and 4.4).
const HEAD: [u8; 11] = [0xca, 0xfe, 0xba, 0xbe, 0, 0, 0, 0x34, 0, 0x14, 1];

/// What stands between the class's name and the length of the attribute `Code`: the rest of the pool, the class's flags
/// and the head of its one method (JVM specification 4.4 to 4.7).
const MIDDLE: [u8; 200] = [
    7, 0, 1, 1, 0, 16, 106, 97, 118, 97, 47, 108, 97, 110, 103, 47, 79, 98, 106, 101, 99, 116, 7,
    0, 3, 1, 0, 4, 109, 97, 105, 110, 1, 0, 22, 40, 91, 76, 106, 97, 118, 97, 47, 108, 97, 110,
    103, 47, 83, 116, 114, 105, 110, 103, 59, 41, 86, 1, 0, 4, 67, 111, 100, 101, 1, 0, 16, 106,
    97, 118, 97, 47, 108, 97, 110, 103, 47, 83, 121, 115, 116, 101, 109, 7, 0, 8, 1, 0, 3, 111,
    117, 116, 1, 0, 21, 76, 106, 97, 118, 97, 47, 105, 111, 47, 80, 114, 105, 110, 116, 83, 116,
    114, 101, 97, 109, 59, 12, 0, 10, 0, 11, 9, 0, 9, 0, 12, 1, 0, 19, 106, 97, 118, 97, 47, 105,
    111, 47, 80, 114, 105, 110, 116, 83, 116, 114, 101, 97, 109, 7, 0, 14, 1, 0, 7, 112, 114, 105,
    110, 116, 108, 110, 1, 0, 4, 40, 73, 41, 86, 12, 0, 16, 0, 17, 10, 0, 15, 0, 18, 0, 33, 0, 2,
    0, 4, 0, 0, 0, 0, 0, 1, 0, 9, 0, 5, 0, 6, 0, 1, 0, 7,
];

/// What stands before the length of the code: three entries of the operand stack, and one local variable.
const SIZES: [u8; 4] = [0, 3, 0, 1];

/// What stands behind the code: no handler, no attribute of the code, and none of the class.
const TAIL: [u8; 6] = [0, 0, 0, 0, 0, 0];

/// How many bytes the attribute `Code` has besides the code, behind its own length (JVM specification 4.7.3).
const CODE_OVERHEAD: usize = 12;

#[tactic(auto, unfolding(first_form::specs::Reading::after))]
fn after<'a>(front: &[u8], bytes: &'a [u8]) -> Option<&'a [u8]>
    ensures { option_map (λ rest. rest.now) result ≡ bytes_after front.now bytes.now }
{
    if !bytes.starts_with(front) {
        return None;
    }
    Some(&bytes[front.len()..])
}

#[tactic(auto, unfolding(first_form::specs::Reading::number_at))]
fn u16_at(bytes: &[u8]) -> Option<(u16, &[u8])>
    ensures { option_map (λ x. (x.0, x.1.now)) result ≡ number_at w16 bytes.now }
{
    if bytes.len() < 2 {
        return None;
    }
    let (front, rest) = bytes.split_at(2);
    Some((u16::from_be_bytes([front[0], front[1]]), rest))
}

#[tactic(auto, unfolding(first_form::specs::Reading::number_at))]
fn u32_at(bytes: &[u8]) -> Option<(u32, &[u8])>
    ensures { option_map (λ x. (x.0, x.1.now)) result ≡ number_at w32 bytes.now }
{
    if bytes.len() < 4 {
        return None;
    }
    let (front, rest) = bytes.split_at(4);
    Some((
        u32::from_be_bytes([front[0], front[1], front[2], front[3]]),
        rest,
    ))
}

#[tactic(auto, unfolding(first_form::specs::Reading::counted_at))]
fn name_at(bytes: &[u8]) -> Option<(&[u8], &[u8])>
    ensures { option_map (λ x. (x.0.now, x.1.now)) result ≡ counted_at w16 bytes.now }
{
    let (count, rest) = u16_at(bytes)?;
    let count = usize::from(count);
    if rest.len() < count {
        return None;
    }
    Some(rest.split_at(count))
}

#[tactic(auto, unfolding(first_form::specs::Reading::counted_at))]
fn code_at(bytes: &[u8]) -> Option<(&[u8], &[u8])>
    ensures { option_map (λ x. (x.0.now, x.1.now)) result ≡ counted_at w32 bytes.now }
{
    let (count, rest) = u32_at(bytes)?;
    let count = count as usize;
    if rest.len() < count {
        return None;
    }
    Some(rest.split_at(count))
}

fn after_head(bytes: &[u8]) -> Option<&[u8]>
    ensures { option_map (λ rest. rest.now) result ≡ bytes_after head bytes.now }
{
    after(&HEAD, bytes)
}

fn after_middle(bytes: &[u8]) -> Option<&[u8]>
    ensures { option_map (λ rest. rest.now) result ≡ bytes_after middle bytes.now }
{
    after(&MIDDLE, bytes)
}

fn after_sizes(bytes: &[u8]) -> Option<&[u8]>
    ensures { option_map (λ rest. rest.now) result ≡ bytes_after sizes bytes.now }
{
    after(&SIZES, bytes)
}

fn is_tail(bytes: &[u8]) -> bool
    ensures { result ≡ bytes_eq bytes.now tail }
{
    bytes == TAIL.as_slice()
}

/// The class's name and the code of its one method, where every other byte of the file is as it must be.
#[tactic(auto, unfolding(first_form::specs::Reading::name_and_code))]
pub fn name_and_code(bytes: &[u8]) -> Option<(&[u8], &[u8])>
    ensures { option_map (λ x. (x.0.now, x.1.now)) result ≡ both_of bytes.now }
{
    let rest = after_head(bytes)?;
    let (name, rest) = name_at(rest)?;
    let rest = after_middle(rest)?;
    let (size, rest) = u32_at(rest)?;
    let rest = after_sizes(rest)?;
    let (code, rest) = code_at(rest)?;
    if !is_tail(rest) {
        return None;
    }
    if size as usize != code.len() + CODE_OVERHEAD {
        return None;
    }
    Some((name, code))
}
