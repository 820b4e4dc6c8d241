//! Header parameters, each behind a `;` (RFC 3261 25.1): a value's are read once, and looked up by name where they stand.
ghost use Rattle.std.specs.Prelude.{◌≡◌, ◌++◌, ◌∷◌, true, false, option_map, is_some, Some, None, codes, [], IfSome, MatchOption};
ghost use Rattle.std.specs.Str.{byte};
ghost use Rattle.sip_text.specs.Words.{is_token_text};
ghost use Rattle.sip_text.specs.Cuts.{parts_at, parts_behind};
ghost use Rattle.sip_header.specs.Parameters.{is_value, needs_value, bare_parameter, valued_parameter, parameter_in, parameters_in};
ghost use Rattle.sip_header.specs.Parameters.{said_in, closing, IsValueAt, Begins, GoesOn, parameter_of, value_of, tag_of, branch_of};

use sip_text::{
    Text, first_part, is_quoted, is_token, same_bytes, same_no_case, split_outside, split_quoted,
    split_token, without_blanks,
};
use sip_uri::is_host;
use std::marker::Model;

/// A header parameter: its name, and its value as it was written, quotes included.
#[derive(Drop)]
pub struct HeaderParameter<'a> {
    pub name: Text<'a>,
    pub value: Option<Text<'a>>,
}

/// A parameter of a token and a token or quoted text with nothing round them: a name and its value.
#[derive(Drop)]
pub(crate) struct Assigned<'a> {
    name: &'a [u8],
    value: &'a [u8],
}

/// The parameters of a value, each behind a `;`. They were read once, and are looked up where they stand.
#[derive(Drop)]
pub struct Parameters<'a> {
    /// The first of them, if it is written so, as `branch` and `tag` are, which are looked up most.
    first: Option<Assigned<'a>>,
    /// What follows the `;` behind that one, or else the first `;`, if one stands there.
    others: Option<&'a [u8]>,
}

impl<'a> Model for Parameters<'a> {
    ghost use Rattle.std.specs.Prelude.{◌≡◌, List, Some, option_map};
    ghost use Rattle.sip_text.specs.Cuts.{parts_behind};
    ghost use Rattle.sip_header.specs.Parameters.{parameters_in, said_in};
    ghost use Rattle.sip_header.specs.FirstParameter.{behind_first};
    ghost use Rattle.sip_header.specs.declared.parameters.HeaderParameter.{HeaderParameter};

    ghost Value = { List HeaderParameter };

    ghost view = { λ p. behind_first p.first (said_in (parts_behind 59 (option_map (λ x. x.now) p.others))) };

    ghost invariant = { λ p. parameters_in (parts_behind 59 (option_map (λ x. x.now) p.others))
        ≡ Some (said_in (parts_behind 59 (option_map (λ x. x.now) p.others))) };
}

/// The parameter that a text of one writes.
#[tactic(auto, using(crate::proofs::Lookup::assigned_is, crate::proofs::Lookup::bare_is))]
fn said_by(text: &[u8]) -> HeaderParameter<'_>
    requires { is_some (parameter_in text.now) ≡ true }
    ensures { parameter_in text.now ≡ Some result }
{
    match split_outside(text, b'=') {
        Some((name, value)) => HeaderParameter {
            name: Text::new(without_blanks(name)),
            value: Some(Text::new(without_blanks(value))),
        },
        None => HeaderParameter {
            name: Text::new(without_blanks(text)),
            value: None,
        },
    }
}

/// What follows a parameter: nothing, or a `;` and the rest. None where something else follows.
#[inline(always)]
pub(crate) fn plain_end(rest: &[u8]) -> Option<Option<&[u8]>>
    ensures { IfSome result (λ behind. rest.now ≡ closing (option_map (λ x. x.now) behind)) }
{
    match rest.split_first() {
        Some((b';', behind)) => Some(Some(behind)),
        Some(_) => None,
        None => Some(None),
    }
}

/// A parameter of a name without a value, and what follows it.
#[inline(always)]
fn plain_name<'v>(name: &'v [u8], rest: &'v [u8]) -> Option<(HeaderParameter<'v>, Option<&'v [u8]>)>
    requires { is_token_text name.now ≡ true }
    ensures { IfSome result (λ x. Begins (name.now ++ rest.now) x.0 (option_map (λ y. y.now) x.1)) }
{
    let behind = plain_end(rest)?;
    if wants_value(name) {
        return None;
    }
    let parameter = HeaderParameter {
        name: Text::new(name),
        value: None,
    };
    Some((parameter, behind))
}

/// The token, or the quoted text, at the front of a text, and what follows it.
#[inline(always)]
#[tactic(auto, using(crate::proofs::Plain::quoted_at_front))]
fn plain_value_at(text: &[u8]) -> Option<(&[u8], &[u8])>
    ensures { IfSome result (λ x. IsValueAt text.now x.0.now x.1.now) }
{
    let (value, rest) = split_token(text);
    if value.is_empty() {
        let (quoted, behind) = split_quoted(text)?;
        return Some((quoted, behind));
    }
    Some((value, rest))
}

/// A parameter of a name and the token or the quoted text behind its `=`, and what follows it.
#[inline(always)]
fn plain_value<'v>(
    name: &'v [u8],
    text: &'v [u8],
) -> Option<(HeaderParameter<'v>, Option<&'v [u8]>)>
    requires { is_token_text name.now ≡ true }
    ensures { IfSome result (λ x. Begins (name.now ++ byte "=" ∷ text.now) x.0 (option_map (λ y. y.now) x.1)) }
{
    let (value, rest) = plain_value_at(text)?;
    let behind = plain_end(rest)?;
    let parameter = HeaderParameter {
        name: Text::new(name),
        value: Some(Text::new(value)),
    };
    Some((parameter, behind))
}

/// The parameter at the front of a text, and what follows its `;`, where its name is a token and its value one or quoted text, with
/// nothing round them, as phones write them: so each byte is read once. None says nothing.
#[inline(always)]
fn plain_parameter(text: &[u8]) -> Option<(HeaderParameter<'_>, Option<&[u8]>)>
    ensures { IfSome result (λ x. Begins text.now x.0 (option_map (λ y. y.now) x.1)) }
{
    let (name, rest) = split_token(text);
    if name.is_empty() {
        return None;
    }
    match rest.split_first() {
        Some((b'=', value)) => plain_value(name, value),
        _ => plain_name(name, rest),
    }
}

/// The first of the parameters of a text that were read, and what follows it.
#[tactic(auto, using(crate::proofs::Plain::part_begins))]
fn first_said(text: &[u8]) -> (HeaderParameter<'_>, Option<&[u8]>)
    requires { is_some (parameters_in (parts_at 59 text.now)) ≡ true }
    ensures { Begins text.now result.0 (option_map (λ y. y.now) result.1) }
{
    if let Some(first) = plain_parameter(text) {
        return first;
    }
    let (part, rest) = first_part(text, b';');
    (said_by(part), rest)
}

/// The first parameter of a name among those that were read.
#[tactic(auto, using(crate::proofs::Plain::named_here, crate::proofs::Plain::named_later))]
fn first_named<'v>(behind: Option<&'v [u8]>, name: &[u8]) -> Option<HeaderParameter<'v>>
    requires { is_some (parameters_in (parts_behind 59 (option_map (λ x. x.now) behind))) ≡ true }
    ensures { result ≡ parameter_of name.now (said_in (parts_behind 59 (option_map (λ x. x.now) behind.entry))) }
{
    let mut behind = behind;
    while let Some(text) = behind {
        let (parameter, rest) = first_said(text);
        if same_no_case(parameter.name.as_slice(), name) {
            return Some(parameter);
        }
        behind = rest;
    }
    None
}

/// The first parameter of a name, which is compared without case. Takes no memory.
#[tactic(auto, using(crate::proofs::FirstParameters::first_is, crate::proofs::FirstParameters::is_behind_first, crate::proofs::FirstParameters::none_first))]
pub fn parameter_of<'v>(parameters: &Parameters<'v>, name: &[u8]) -> Option<HeaderParameter<'v>>
    ensures { result ≡ parameter_of name.now parameters.now }
{
    if let Some(first) = &parameters.first {
        if same_no_case(first.name, name) {
            return Some(HeaderParameter {
                name: Text::new(first.name),
                value: Some(Text::new(first.value)),
            });
        }
    }
    first_named(parameters.others, name)
}

/// The value of the first parameter of a name, if it has one. Takes no memory.
pub fn value_of<'v>(parameters: &Parameters<'v>, name: &[u8]) -> Option<&'v [u8]>
    ensures { option_map (λ x. x.now) result ≡ value_of name.now parameters.now }
{
    let parameter = parameter_of(parameters, name)?;
    match &parameter.value {
        Some(value) => Some(value.as_slice()),
        None => None,
    }
}

/// The tag, if there is one (RFC 3261 19.3). Takes no memory.
pub fn tag_of<'v>(parameters: &Parameters<'v>) -> Option<&'v [u8]>
    ensures { option_map (λ x. x.now) result ≡ tag_of parameters.now }
{
    value_of(parameters, b"tag")
}

/// The branch, if there is one (RFC 3261 8.1.1.7). Takes no memory.
pub fn branch_of<'v>(parameters: &Parameters<'v>) -> Option<&'v [u8]>
    ensures { option_map (λ x. x.now) result ≡ branch_of parameters.now }
{
    value_of(parameters, b"branch")
}

/// The first of two parameters, of which the second is an `rport` with nothing round it, as clients ask for their port (RFC 3581
/// 3). None says nothing. Takes no memory.
pub fn one_before_rport<'v>(parameters: &Parameters<'v>) -> Option<HeaderParameter<'v>>
    ensures { IfSome result (λ first. parameters.now ≡ first ∷ record { name = codes "rport"; value = None } ∷ []) }
{
    let first = parameters.first.as_ref()?;
    let others = parameters.others?;
    if !same_bytes(others, b"rport") {
        return None;
    }
    Some(HeaderParameter {
        name: Text::new(first.name),
        value: Some(Text::new(first.value)),
    })
}

/// Whether bytes may be the value of a parameter.
fn is_value_text(bytes: &[u8]) -> bool
    ensures { result ≡ is_value bytes.now }
{
    if is_token(bytes) {
        return true;
    }
    if is_host(bytes) {
        return true;
    }
    is_quoted(bytes)
}

/// Whether a parameter of this name needs a value.
fn wants_value(name: &[u8]) -> bool
    ensures { result ≡ needs_value name.now }
{
    same_no_case(name, b"tag") || same_no_case(name, b"branch")
}

fn without_value(name: &[u8]) -> Option<HeaderParameter<'_>>
    ensures { result ≡ bare_parameter name.now }
{
    if !is_token(name) {
        return None;
    }
    if wants_value(name) {
        return None;
    }
    Some(HeaderParameter {
        name: Text::new(name),
        value: None,
    })
}

fn with_value<'v>(name: &'v [u8], value: &'v [u8]) -> Option<HeaderParameter<'v>>
    ensures { result ≡ valued_parameter name.now value.now }
{
    if !is_token(name) {
        return None;
    }
    if !is_value_text(value) {
        return None;
    }
    Some(HeaderParameter {
        name: Text::new(name),
        value: Some(Text::new(value)),
    })
}

/// The parameter that bytes write.
fn parameter_from(bytes: &[u8]) -> Option<HeaderParameter<'_>>
    ensures { result ≡ parameter_in bytes.now }
{
    match split_outside(bytes, b'=') {
        Some((name, value)) => with_value(without_blanks(name), without_blanks(value)),
        None => without_value(without_blanks(bytes)),
    }
}

/// What follows the first of the parameters that a text writes. None where it writes none.
#[tactic(auto, using(crate::proofs::Plain::goes_on))]
fn behind_parameter(text: &[u8]) -> Option<Option<&[u8]>>
    ensures { MatchOption result (is_some (parameters_in (parts_at 59 text.now)) ≡ false) (λ rest. GoesOn text.now (option_map (λ x. x.now) rest)) }
{
    if let Some((_, rest)) = plain_parameter(text) {
        return Some(rest);
    }
    let (part, rest) = first_part(text, b';');
    let Some(_) = parameter_from(part) else {
        return None;
    };
    Some(rest)
}

/// Whether the rest of a value writes parameters, each behind a `;`.
fn are_parameters(behind: Option<&[u8]>) -> bool
    ensures { result ≡ is_some (parameters_in (parts_behind 59 (option_map (λ x. x.now) behind.entry))) }
{
    let mut behind = behind;
    while let Some(text) = behind {
        let Some(rest) = behind_parameter(text) else {
            return false;
        };
        behind = rest;
    }
    true
}

/// The same where mostly nothing is left, as behind the one parameter that most values have.
#[inline]
fn are_others(behind: Option<&[u8]>) -> bool
    ensures { result ≡ is_some (parameters_in (parts_behind 59 (option_map (λ x. x.now) behind.entry))) }
{
    match behind {
        Some(_) => are_parameters(behind),
        None => true,
    }
}

/// The parameters that the rest of a value writes, each behind a `;`, of any form.
#[tactic(auto, using(crate::proofs::Lookup::some_said, crate::proofs::Lookup::none_said))]
fn any_parameters<'v>(behind: Option<&'v [u8]>) -> Option<Parameters<'v>>
    ensures { result ≡ parameters_in (parts_behind 59 (option_map (λ x. x.now) behind.entry)) }
{
    if !are_parameters(behind) {
        return None;
    }
    Some(Parameters {
        first: None,
        others: behind,
    })
}

/// A parameter of a token and a token or quoted text at the front of a text, and what follows its `;`: so each byte is read once.
/// None says nothing.
fn assigned_at(text: &[u8]) -> Option<(Assigned<'_>, Option<&[u8]>)>
    ensures { IfSome result (λ x. Begins text.now (record { name = x.0.name.now; value = Some x.0.value.now }) (option_map (λ y. y.now) x.1)) }
{
    let (name, rest) = split_token(text);
    if name.is_empty() {
        return None;
    }
    let Some((b'=', given)) = rest.split_first() else {
        return None;
    };
    let (value, last) = plain_value_at(given)?;
    let behind = plain_end(last)?;
    Some((Assigned { name, value }, behind))
}

/// The parameters of a text, of which the first was read, if each behind it is one.
#[tactic(auto, using(crate::proofs::Plain::none_begun, crate::proofs::Plain::begun))]
fn parameters_behind<'v>(
    text: &'v [u8],
    first: Assigned<'v>,
    others: Option<&'v [u8]>,
) -> Option<Parameters<'v>>
    requires { Begins text.now (record { name = first.name.now; value = Some first.value.now }) (option_map (λ y. y.now) others) }
    ensures { result ≡ parameters_in (parts_at 59 text.now) }
{
    if !are_others(others) {
        return None;
    }
    Some(Parameters {
        first: Some(first),
        others,
    })
}

/// The parameters that the rest of a value writes, each behind a `;`.
pub(crate) fn parameters_from<'v>(behind: Option<&'v [u8]>) -> Option<Parameters<'v>>
    ensures { result ≡ parameters_in (parts_behind 59 (option_map (λ x. x.now) behind.entry)) }
{
    if let Some(text) = behind {
        if let Some((first, others)) = assigned_at(text) {
            return parameters_behind(text, first, others);
        }
    }
    any_parameters(behind)
}
