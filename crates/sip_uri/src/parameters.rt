//! The parameters of a URI read (RFC 3261 19.1.1, 25.1), of which no name stands twice.
//! Those of a header field's value are read in `sip_header`.
ghost use Rattle.std.specs.Prelude.{◌≡◌, IfOk, map, option_map};
ghost use Rattle.std.specs.Option.{ok_or};
ghost use Rattle.std.specs.List.{list_any};
ghost use Rattle.sip_text.specs.Words.{is_same_text};
ghost use Rattle.sip_uri.specs.Uri as Definitions;
ghost use Rattle.sip_uri.specs.Reading.{Gives, parameter_of, listed_parameters, parameters_behind};
ghost use Rattle.sip_uri.specs.declared.error.UriError.TheVariants.{Syntax};

use crate::error::UriError;
use crate::escape_classes::{Class, is_escaped};
use crate::parts::{copy_part, part_before};
use sip_text::{Bytes, FEW_TEXTS, Items, all_differ, same_no_case, split_once};
use std::alloc::{AllocError, Global};

/// A URI parameter, as written (RFC 3261 19.1.1).
#[derive(Clone)]
pub struct UriParameter {
    /// The name, with its escapes.
    pub name: Bytes,
    /// The value, with its escapes, where a `=` stands.
    pub value: Option<Bytes>,
}

/// Written out, so that it is proved once and not wherever one is dropped.
impl Drop for UriParameter {
    fn drop(self) {
        let UriParameter { name: _, value: _ } = self;
    }
}

/// Whether a text is the value of a parameter, or there is none.
fn is_value_or_none(value: Option<&[u8]>) -> bool
    ensures { result ≡ Definitions.is_value_or_none (option_map (λ x. x.now) value.entry) }
{
    match value {
        Some(value) => is_escaped(Class::Parameter, value),
        None => true,
    }
}

/// The parameter that a text writes: a name, and behind a `=` its value.
fn read_parameter(alloc: Global, text: &[u8]) -> Result<UriParameter, UriError>
    ensures { Gives (λ parameter. parameter) result (ok_or (parameter_of text.now) Syntax) }
{
    let (name, value) = part_before(text, b'=');
    if !is_escaped(Class::Parameter, name) {
        return Err(UriError::Syntax);
    }
    if !is_value_or_none(value) {
        return Err(UriError::Syntax);
    }
    let name = Bytes::copy(alloc, name)?;
    let value = copy_part(alloc, value)?;
    Ok(UriParameter { name, value })
}

/// The parameters between the `;` of a text.
fn list_parameters(alloc: Global, text: &[u8]) -> Result<Items<UriParameter>, UriError>
    ensures { Gives (λ parameters. parameters) result (ok_or (listed_parameters text.now) Syntax) }
{
    let mut parameters = Items::new(alloc);
    let mut rest = text;
    while let Some((part, behind)) = split_once(rest, b';') {
        parameters.push(read_parameter(alloc, part)?)?;
        rest = behind;
    }
    parameters.push(read_parameter(alloc, rest)?)?;
    Ok(parameters)
}

/// Whether a parameter has this name, compared as written but for case.
fn has_name(parameters: &[UriParameter], name: &[u8]) -> bool
    ensures { result ≡ list_any (λ p. is_same_text name.now p.name) parameters.now }
{
    parameters
        .iter()
        .any(|parameter| same_no_case(name, parameter.name.as_slice()))
}

/// Whether no name of a few parameters stands twice, each compared with each. Takes no memory.
fn few_names_differ(parameters: &[UriParameter]) -> bool
    ensures { result ≡ Definitions.names_differ parameters.now }
{
    let mut rest = parameters;
    while let Some((first, others)) = rest.split_first() {
        if has_name(others, first.name.as_slice()) {
            return false;
        }
        rest = others;
    }
    true
}

fn names_of(alloc: Global, parameters: &[UriParameter]) -> Result<Vec<&[u8]>, AllocError>
    ensures { IfOk result (λ names. map (λ x. x.now) names.items ≡ map (λ p. p.name) parameters.now) }
{
    let mut names = Vec::new(alloc);
    for parameter in parameters {
        names.push(parameter.name.as_slice())?;
    }
    Ok(names)
}

/// Whether no name stands twice. Of many parameters the names are put in order, since comparing each with
/// each would cost the square of the text.
fn names_differ(alloc: Global, parameters: &[UriParameter]) -> Result<bool, AllocError>
    ensures { IfOk result (λ differ. differ ≡ Definitions.names_differ parameters.now) }
{
    if parameters.len() <= FEW_TEXTS {
        return Ok(few_names_differ(parameters));
    }
    let mut names = names_of(alloc, parameters)?;
    Ok(all_differ(names.as_mut_slice()))
}

/// The parameters behind the first `;`, if one stands there. No name may stand twice.
pub(crate) fn read_parameters(
    alloc: Global,
    text: Option<&[u8]>,
) -> Result<Items<UriParameter>, UriError>
    ensures { Gives (λ parameters. parameters) result (ok_or (parameters_behind (option_map (λ x. x.now) text.entry)) Syntax) }
{
    let Some(text) = text else {
        return Ok(Items::new(alloc));
    };
    let parameters = list_parameters(alloc, text)?;
    if !names_differ(alloc, parameters.as_slice())? {
        return Err(UriError::Syntax);
    }
    Ok(parameters)
}
