//! Texts that are made from their last byte to their first, each part in front of a place of room that is lent: so they take no
//! memory, and of a number the last digit is known first.
ghost use Rattle.std.specs.Prelude.{◌≡◌, ◌≤◌, ◌<◌, ◌+◌, ◌/◌, ◌%◌, ◌++◌, ◌∷◌, decimal, drop, length};
ghost use Rattle.sip_uri.specs.Addresses.{addr_text};

use sip_uri::Addr;

/// Puts a byte in front of a place; where it stands.
#[inline(always)]
pub fn put_byte(room: &mut [u8], end: usize, byte: u8) -> usize
    requires { (1 ≤ end) × (end ≤ length room.old) }
    ensures text { drop result room.new ≡ byte ∷ drop end room.old }
    ensures place { result + 1 ≡ end }
    ensures len { length room.new ≡ length room.old }
{
    room[end - 1] = byte;
    end - 1
}

/// Puts a word in front of a place; where it begins.
#[inline(always)]
pub fn put_word(room: &mut [u8], end: usize, word: &[u8]) -> usize
    requires { (length word.now ≤ end) × (end ≤ length room.old) }
    ensures text { drop result room.new ≡ word.now ++ drop end room.old }
    ensures place { result + length word.now ≡ end }
    ensures len { length room.new ≡ length room.old }
{
    let start = end - word.len();
    room[start..end].copy_from_slice(word);
    start
}

/// The two digits of each number below 100, one pair behind the other.
static PAIRS: [u8; 200] = *b"\
    0001020304050607080910111213141516171819\
    2021222324252627282930313233343536373839\
    4041424344454647484950515253545556575859\
    6061626364656667686970717273747576777879\
    8081828384858687888990919293949596979899";

/// Puts the two digits of a number below 100 in front of a place; where they begin.
#[inline(always)]
fn put_pair(room: &mut [u8], end: usize, number: u8) -> usize
    requires place { (2 ≤ end) × (end ≤ length room.old) }
    requires number { number < 100 }
    ensures text { drop result room.new ≡ (48 + number / 10) ∷ (48 + number % 10) ∷ drop end room.old }
    ensures place { result + 2 ≡ end }
    ensures len { length room.new ≡ length room.old }
{
    let first = 2 * usize::from(number);
    let last = put_byte(room, end, PAIRS[first + 1]);
    put_byte(room, last, PAIRS[first])
}

/// Puts a number in decimal in front of a place; where it begins.
#[inline(always)]
pub fn put_number(room: &mut [u8], end: usize, number: u64) -> usize
    requires { (20 ≤ end) × (end ≤ length room.old) }
    ensures text { drop result room.new ≡ decimal number ++ drop end room.old }
    ensures within { (result ≤ end) × (end ≤ result + 20) }
    ensures len { length room.new ≡ length room.old }
{
    let mut left = number;
    let mut start = end;
    while left >= 100 {
        start = put_pair(room, start, (left % 100) as u8);
        left /= 100;
    }
    if left >= 10 {
        return put_pair(room, start, left as u8);
    }
    put_byte(room, start, b'0' + left as u8)
}

/// Puts an address as `IP:PORT` in front of a place; where it begins.
#[inline(always)]
pub fn put_addr(room: &mut [u8], end: usize, addr: Addr) -> usize
    requires { (104 ≤ end) × (end ≤ length room.old) }
    ensures text { drop result room.new ≡ addr_text addr ++ drop end room.old }
    ensures within { (result ≤ end) × (end ≤ result + 104) }
    ensures len { length room.new ≡ length room.old }
{
    let port = put_number(room, end, u64::from(addr.port));
    let colon = put_byte(room, port, b':');
    let fourth = put_number(room, colon, u64::from(addr.ip[3]));
    let dot = put_byte(room, fourth, b'.');
    let third = put_number(room, dot, u64::from(addr.ip[2]));
    let dot = put_byte(room, third, b'.');
    let second = put_number(room, dot, u64::from(addr.ip[1]));
    let dot = put_byte(room, second, b'.');
    put_number(room, dot, u64::from(addr.ip[0]))
}
