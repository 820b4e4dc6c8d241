ghost use Rattle.std.specs.Prelude.{◌≡◌, ◌++◌, option_map};
ghost use Rattle.sip_edit.specs.BranchId as Branches;

use sip_text::{hex_text, plain_decimal, plain_decimal_below, split_once};

/// What a branch of this server names: the number of the datagram that brought its request, and the number
/// of its target, from 1.
#[derive(Clone, Copy)]
pub struct BranchId {
    pub number: u64,
    pub target: u32,
}

/// What follows a front, if a text begins with it.
fn behind<'t>(front: &[u8], text: &'t [u8]) -> Option<&'t [u8]>
    ensures { option_map (λ rest. rest.now) result ≡ Branches.behind front.now text.now }
{
    text.strip_prefix(front)
}

/// What follows a front of three parts, if a text begins with it.
#[tactic(auto, using(crate::proofs::Fronts::behind_parts))]
fn behind_parts<'t>(first: &[u8], second: &[u8], third: &[u8], text: &'t [u8]) -> Option<&'t [u8]>
    ensures { option_map (λ rest. rest.now) result ≡ Branches.behind (first.now ++ second.now ++ third.now) text.now }
{
    let rest = behind(first, text)?;
    let rest = behind(second, rest)?;
    behind(third, rest)
}

/// What follows the front that each branch of this server has, if a text begins with it.
fn behind_branch_front(boot: u64, text: &[u8]) -> Option<&[u8]>
    ensures { option_map (λ rest. rest.now) result ≡ Branches.behind (Branches.branch_front boot) text.now }
{
    behind_parts(b"z9hG4bK", hex_text(boot).as_slice(), b".", text)
}

/// The two numbers of a branch.
fn id_from(number: &[u8], target: &[u8]) -> Option<BranchId>
    ensures { result ≡ Branches.id_from number.now target.now }
{
    let number = plain_decimal(number)?;
    let target = plain_decimal_below(target, 0x1_0000_0000)?;
    Some(BranchId {
        number,
        target: target as u32,
    })
}

/// What the branch of a Via names, if it is one of the run of this server that began with this boot word: the numbers of
/// which `branch_text` makes it (RFC 3261 8.1.1.7, 16.6 step 8). Takes no memory.
pub fn branch_of_text(boot: u64, text: &[u8]) -> Option<BranchId>
    ensures { result ≡ Branches.branch_id_of boot text.now }
{
    let rest = behind_branch_front(boot, text)?;
    let (number, target) = split_once(rest, b'.')?;
    id_from(number, target)
}
