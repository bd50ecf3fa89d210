//! Decodes a full line of base64 text: 64 symbols, none of them padding. In a block of the usual width all lines but
//! the last are of this kind, so that nearly all of a block is read here, by a table for each place of a symbol in its
//! group of four.

ghost use Rattle.std.specs.Prelude.{◌≡◌, ◌+◌, ◌<◌, ◌≤◌, IsTrue, IfSome, length};
ghost use Rattle.base64.specs.Engines.{standard};
ghost use Rattle.base64.specs.GeneralPurpose.{IsBytes, encode_of};
ghost use Rattle.x509_pem.specs.Group.{SymbolAdds, first_adds, second_adds, third_adds, fourth_adds, IsGroup, DecodedTo};

use crate::table::PARTS;

/// What the first symbol of a group adds.
fn first_of(symbol: u8) -> u32
    ensures { SymbolAdds first_adds symbol result }
{
    PARTS[symbol as usize]
}

/// What the second symbol of a group adds.
fn second_of(symbol: u8) -> u32
    ensures { SymbolAdds second_adds symbol result }
{
    PARTS[256 + symbol as usize]
}

/// What the third symbol of a group adds.
fn third_of(symbol: u8) -> u32
    ensures { SymbolAdds third_adds symbol result }
{
    PARTS[512 + symbol as usize]
}

/// What the fourth symbol of a group adds.
fn fourth_of(symbol: u8) -> u32
    ensures { SymbolAdds fourth_adds symbol result }
{
    PARTS[768 + symbol as usize]
}

/// What four symbols add up to: the three bytes that they stand for, the first one lowest, or at least 2 to the power
/// of 24, where one of them is no symbol.
fn group_of(first: u8, second: u8, third: u8, fourth: u8) -> u32
    ensures { IsGroup result first second third fourth }
{
    first_of(first) + second_of(second) + third_of(third) + fourth_of(fourth)
}

/// Writes the bytes of a group, and answers whether its four bytes are symbols.
fn put_group(line: &[u8; 64], bytes: &mut [u8; 48], group: usize) -> bool
    requires { group < 16 }
    ensures { IsTrue result → DecodedTo line.now bytes.old group → DecodedTo line.now bytes.new (group + 1) }
{
    let at = 4 * group;
    let sum = group_of(line[at], line[at + 1], line[at + 2], line[at + 3]);
    if sum >= 0x100_0000 {
        return false;
    }
    bytes[3 * group] = (sum % 256) as u8;
    bytes[3 * group + 1] = (sum / 256 % 256) as u8;
    bytes[3 * group + 2] = (sum / 65536) as u8;
    true
}

/// Writes the bytes of four groups, and answers whether all of them are of symbols.
fn put_four(line: &[u8; 64], bytes: &mut [u8; 48], first: usize) -> bool
    requires { first + 4 ≤ 16 }
    ensures { IsTrue result → DecodedTo line.now bytes.old first → DecodedTo line.now bytes.new (first + 4) }
{
    put_group(line, bytes, first)
        && put_group(line, bytes, first + 1)
        && put_group(line, bytes, first + 2)
        && put_group(line, bytes, first + 3)
}

/// The bytes that a line stands for, or none where a byte of it is no symbol.
pub(crate) fn decode_line(line: &[u8; 64]) -> Option<[u8; 48]>
    ensures { IfSome result (λ bytes. (line.now ≡ encode_of standard bytes) × (length bytes ≡ 48) × IsBytes bytes) }
{
    let mut bytes = [0u8; 48];
    'fours: for four in 0..4usize {
        if !put_four(line, &mut bytes, 4 * four) {
            return None;
        }
    }
    Some(bytes)
}
