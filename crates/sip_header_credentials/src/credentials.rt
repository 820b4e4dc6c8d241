//! Digest credentials read (RFC 2617 3.2.2): items in their usual form in one pass, every other form by the general grammar.
//! Whether they prove anybody is asked in `sip_auth`.
ghost use Rattle.std.specs.Prelude.{◌≡◌, ◌≤◌, [], ◌∷◌, ◌++◌, List, true, None, Some, IfOk, IfSome, OnOk, MatchOption, is_some, length, map, option_map};
ghost use Rattle.sip_text.specs.Cuts.{parts_at, parts_behind};
ghost use Rattle.sip_text.specs.Escapes.{plain_front};
ghost use Rattle.sip_header_credentials.specs.Credentials.{value_said, item_from, item_in, items_in, item_value, names_differ};
ghost use Rattle.sip_header_credentials.specs.Credentials.{credentials_from, from_items, credentials_of};
ghost use Rattle.sip_header_credentials.specs.UsualItems.{comma_and, IsNameFirst, IsValueFirst, IsPlaced};
ghost use Rattle.std.specs.Option.{option_and_then};

use sip_message_fields::Value;
use sip_text::{
    Text, TextError, all_differ, first_part, is_token, plain_quoted, same_bytes, same_no_case,
    split_once, split_outside, split_token, split_word, unquote, without_blanks,
    without_front_blanks,
};
use std::alloc::{AllocError, Global};

/// The names that credentials may have: the nine that count, and `opaque`.
const USUAL_ITEMS: usize = 10;

/// The most bytes of items that are read as usual ones first: nothing longer is read twice.
const USUAL_LENGTH: usize = 1024;

/// What Digest credentials say (RFC 2617 3.2.2), without quotes: parts of what was read, but for quoted text with
/// a `\`. Nothing is checked but their form.
#[derive(Drop)]
pub struct Credentials<'a> {
    pub username: Option<Value<'a>>,
    pub realm: Option<Value<'a>>,
    pub nonce: Option<Value<'a>>,
    pub uri: Option<Value<'a>>,
    pub response: Option<Value<'a>>,
    pub algorithm: Option<Value<'a>>,
    pub qop: Option<Value<'a>>,
    pub nc: Option<Value<'a>>,
    pub cnonce: Option<Value<'a>>,
}

/// A name and what its value says.
#[derive(Drop)]
struct Item<'a> {
    name: Text<'a>,
    value: Value<'a>,
}

/// What a value says: a token itself, or quoted text without its quotes.
fn value_from(alloc: Global, bytes: &[u8]) -> Result<Option<Value<'_>>, AllocError>
    ensures { IfOk result (λ value. value ≡ value_said bytes.now) }
{
    if is_token(bytes) {
        return Ok(Some(Value::of_part(bytes)));
    }
    if let Some(part) = plain_quoted(bytes) {
        return Ok(Some(Value::of_part(part)));
    }
    match unquote(alloc, bytes) {
        Ok(value) => Ok(Some(Value::of_bytes(alloc, value)?)),
        Err(TextError::NoMemory) => Err(AllocError),
        Err(_) => Ok(None),
    }
}

fn item_of<'v>(
    alloc: Global,
    name: &'v [u8],
    value: &'v [u8],
) -> Result<Option<Item<'v>>, AllocError>
    ensures { IfOk result (λ item. item ≡ item_from name.now value.now) }
{
    if !is_token(name) {
        return Ok(None);
    }
    let Some(value) = value_from(alloc, value)? else {
        return Ok(None);
    };
    let name = Text::new(name);
    Ok(Some(Item { name, value }))
}

/// The item that bytes write.
fn read_item(alloc: Global, bytes: &[u8]) -> Result<Option<Item<'_>>, AllocError>
    ensures { IfOk result (λ item. item ≡ item_in bytes.now) }
{
    match split_outside(bytes, b'=') {
        Some((name, value)) => item_of(alloc, without_blanks(name), without_blanks(value)),
        None => Ok(None),
    }
}

/// A value in its usual form at the front of a text: what it says, and what follows the comma behind it.
#[derive(Clone, Copy)]
struct UsualValue<'v> {
    said: &'v [u8],
    rest: Option<&'v [u8]>,
}

/// What stands before the first comma, and what follows it.
fn until_comma(text: &[u8]) -> (&[u8], Option<&[u8]>)
    ensures { text.now ≡ result.0.now ++ comma_and (option_map (λ x. x.now) result.1) }
{
    match split_once(text, b',') {
        Some((front, rest)) => (front, Some(rest)),
        None => (text, None),
    }
}

/// A token up to the first comma.
fn usual_token(text: &[u8]) -> Option<UsualValue<'_>>
    ensures { IfSome result (λ x. IsValueFirst text.now x.said.now (option_map (λ y. y.now) x.rest)) }
{
    let (written, rest) = until_comma(text);
    let said = without_blanks(written);
    if is_token(said) {
        Some(UsualValue { said, rest })
    } else {
        None
    }
}

/// How many bytes stand for themselves at the front of the rest of quoted text.
fn plain_length(bytes: &[u8]) -> usize
    ensures value { result ≡ length (plain_front bytes.now) }
    ensures within { result ≤ length bytes.now }
{
    for at in 0..bytes.len() {
        if bytes[at] == b'"' || bytes[at] == b'\\' {
            return at;
        }
    }
    bytes.len()
}

/// What follows the comma with which a text begins, if it isn't empty.
fn behind_comma(text: &[u8]) -> Option<Option<&[u8]>>
    ensures { IfSome result (λ rest. text.now ≡ comma_and (option_map (λ x. x.now) rest)) }
{
    match text.split_first() {
        None => Some(None),
        Some((b',', rest)) => Some(Some(rest)),
        Some(_) => None,
    }
}

/// Quoted text without a `\`, which a comma or the end follows at once.
fn usual_quoted(text: &[u8]) -> Option<UsualValue<'_>>
    ensures { IfSome result (λ x. IsValueFirst text.now x.said.now (option_map (λ y. y.now) x.rest)) }
{
    let Some((b'"', inside)) = text.split_first() else {
        return None;
    };
    let (said, behind) = inside.split_at(plain_length(inside));
    let Some((b'"', end)) = behind.split_first() else {
        return None;
    };
    let rest = behind_comma(end)?;
    Some(UsualValue { said, rest })
}

/// A value in its usual form.
fn usual_value(text: &[u8]) -> Option<UsualValue<'_>>
    ensures { IfSome result (λ x. IsValueFirst text.now x.said.now (option_map (λ y. y.now) x.rest)) }
{
    if let Some(value) = usual_quoted(text) {
        return Some(value);
    }
    usual_token(text)
}

/// An item whose name and value stand in the text so.
fn plain_item<'v>(name: &'v [u8], value: &'v [u8]) -> Item<'v>
    ensures { result ≡ record { name = name.now; value = value.now } }
{
    let name = Text::new(name);
    let value = Value::of_part(value);
    Item { name, value }
}

/// The token that stands, but for blanks, at the front of a text, and what follows the `=` behind it: so each byte is read
/// once.
fn usual_name(text: &[u8]) -> Option<(&[u8], &[u8])>
    ensures { IfSome result (λ x. IsNameFirst text.now x.0.now x.1.now) }
{
    let (name, rest) = split_token(without_front_blanks(text));
    if name.is_empty() {
        return None;
    }
    let Some((b'=', right)) = rest.split_first() else {
        return None;
    };
    Some((name, right))
}

/// The name of the first item of a list, its value, and what follows its comma, if the item is in its usual form: then one
/// pass reads it.
fn usual_parts(text: &[u8]) -> Option<(&[u8], UsualValue<'_>)>
    ensures items { IfSome result (λ x. items_in (parts_at 44 text.now)
        ≡ option_map (λ others. record { name = x.0.now; value = x.1.said.now } ∷ others) (items_in (parts_behind 44 (option_map (λ y. y.now) x.1.rest)))) }
    ensures shorter { IfSome result (λ x. length (comma_and (option_map (λ y. y.now) x.1.rest)) ≤ length text.now) }
{
    let (name, right) = usual_name(text)?;
    let value = usual_value(right)?;
    Some((name, value))
}

/// The first item of a list, and what follows its comma, if the item is in its usual form.
fn usual_item(text: &[u8]) -> Option<(Item<'_>, Option<&[u8]>)>
    ensures items { IfSome result (λ x. items_in (parts_at 44 text.now)
        ≡ option_map (λ others. x.0 ∷ others) (items_in (parts_behind 44 (option_map (λ y. y.now) x.1)))) }
    ensures shorter { IfSome result (λ x. length (comma_and (option_map (λ y. y.now) x.1)) ≤ length text.now) }
{
    let (name, value) = usual_parts(text)?;
    Some((plain_item(name, value.said), value.rest))
}

/// The first item of a list, if it is well-formed, and what follows its comma.
fn first_item(alloc: Global, text: &[u8]) -> Result<Option<(Item<'_>, Option<&[u8]>)>, AllocError>
    ensures items { IfOk result (λ first. MatchOption first (items_in (parts_at 44 text.now) ≡ None)
        (λ x. items_in (parts_at 44 text.now) ≡ option_map (λ others. x.0 ∷ others) (items_in (parts_behind 44 (option_map (λ y. y.now) x.1))))) }
    ensures shorter { IfOk result (λ first. IfSome first (λ x. length (comma_and (option_map (λ y. y.now) x.1)) ≤ length text.now)) }
{
    if let Some(usual) = usual_item(text) {
        return Ok(Some(usual));
    }
    let (part, rest) = first_part(text, b',');
    match read_item(alloc, part)? {
        Some(item) => Ok(Some((item, rest))),
        None => Ok(None),
    }
}

/// The items between commas.
#[tactic(auto, using(crate::proofs::UsualItems::goes_on))]
fn read_items(alloc: Global, bytes: &[u8]) -> Result<Option<Vec<Item<'_>>>, AllocError>
    ensures { IfOk result (λ items. option_map (λ v. v.items) items ≡ items_in (parts_at 44 bytes.now)) }
{
    let mut items = Vec::with_capacity(alloc, USUAL_ITEMS)?;
    let mut behind = Some(bytes);
    while let Some(text) = behind {
        let Some((item, rest)) = first_item(alloc, text)? else {
            return Ok(None);
        };
        items.push(item)?;
        behind = rest;
    }
    Ok(Some(items))
}

/// The value of the first item of a name.
fn value_named<'a, 'v>(items: &'a [Item<'v>], name: &[u8]) -> Option<&'a Value<'v>>
    ensures { option_map (λ x. x.now) result ≡ item_value name.now items.now }
{
    for item in items {
        if same_no_case(item.name.as_slice(), name) {
            return Some(&item.value);
        }
    }
    None
}

/// Whether an item has this name.
fn has_name(items: &[Item<'_>], name: &[u8]) -> bool
    ensures { result ≡ is_some (item_value name.now items.now) }
{
    value_named(items, name).is_some()
}

/// Whether no name of a few items stands twice, each compared with each. Takes no memory.
fn few_names_differ(items: &[Item<'_>]) -> bool
    ensures { result ≡ names_differ items.now }
{
    for (at, item) in items.iter().enumerate() {
        if has_name(&items[at + 1..], item.name.as_slice()) {
            return false;
        }
    }
    true
}

fn names_of<'v>(alloc: Global, items: &[Item<'v>]) -> Result<Vec<&'v [u8]>, AllocError>
    ensures { IfOk result (λ names. map (λ x. x.now) names.items ≡ map (λ i. i.name) items.now) }
{
    let mut names = Vec::with_capacity(alloc, items.len())?;
    for item in items {
        names.push(item.name.as_slice())?;
    }
    Ok(names)
}

/// Whether no name stands twice. Of more items than usual the names are put in order, since comparing each with each
/// would cost the square of the value.
fn all_names_differ(alloc: Global, items: &[Item<'_>]) -> Result<bool, AllocError>
    ensures { IfOk result (λ differ. differ ≡ names_differ items.now) }
{
    if items.len() <= USUAL_ITEMS {
        return Ok(few_names_differ(items));
    }
    let mut names = names_of(alloc, items)?;
    Ok(all_differ(names.as_mut_slice()))
}

fn copied_value<'v>(items: &[Item<'v>], name: &[u8]) -> Result<Option<Value<'v>>, AllocError>
    ensures { IfOk result (λ value. value ≡ item_value name.now items.now) }
{
    match value_named(items, name) {
        Some(value) => Ok(Some(value.clone()?)),
        None => Ok(None),
    }
}

/// Puts the value of the first item of a name into its place.
fn put_value<'v>(
    items: &[Item<'v>],
    name: &[u8],
    place: &mut Option<Value<'v>>,
) -> Result<(), AllocError>
    ensures { OnOk result (place.new ≡ item_value name.now items.now) }
{
    *place = copied_value(items, name)?;
    Ok(())
}

/// Puts the values of the items into their places.
fn put_values<'v>(items: &[Item<'v>], places: &mut Credentials<'v>) -> Result<(), AllocError>
    ensures { OnOk result (places.new ≡ credentials_from items.now) }
{
    put_value(items, b"username", &mut places.username)?;
    put_value(items, b"realm", &mut places.realm)?;
    put_value(items, b"nonce", &mut places.nonce)?;
    put_value(items, b"uri", &mut places.uri)?;
    put_value(items, b"response", &mut places.response)?;
    put_value(items, b"algorithm", &mut places.algorithm)?;
    put_value(items, b"qop", &mut places.qop)?;
    put_value(items, b"nc", &mut places.nc)?;
    put_value(items, b"cnonce", &mut places.cnonce)
}

fn credentials_of_items<'v>(
    alloc: Global,
    items: &[Item<'v>],
) -> Result<Option<Credentials<'v>>, AllocError>
    ensures { IfOk result (λ credentials. credentials ≡ from_items items.now) }
{
    if !all_names_differ(alloc, items)? {
        return Ok(None);
    }
    let mut credentials = no_items();
    put_values(items, &mut credentials)?;
    Ok(Some(credentials))
}

/// Puts what an item says into the place of its name, unless one stands there.
#[inline]
fn put_first<'v>(place: &mut Option<Value<'v>>, said: &'v [u8]) -> bool
    ensures free { result ≡ true → place.old ≡ None }
    ensures put { result ≡ true → place.new ≡ Some said.now }
{
    if place.is_some() {
        return false;
    }
    *place = Some(Value::of_part(said));
    true
}

/// Puts what an item says into the place of its name, if the name is one of the nine in small letters, as most are, and the
/// first of it. False says nothing.
fn put_usual<'v>(places: &mut Credentials<'v>, name: &[u8], said: &'v [u8]) -> bool
    ensures { (items : List Item) → result ≡ true → places.old ≡ credentials_from items → IsPlaced items name.now said.now places.new }
{
    if same_bytes(name, b"username") {
        return put_first(&mut places.username, said);
    }
    if same_bytes(name, b"realm") {
        return put_first(&mut places.realm, said);
    }
    if same_bytes(name, b"nonce") {
        return put_first(&mut places.nonce, said);
    }
    if same_bytes(name, b"uri") {
        return put_first(&mut places.uri, said);
    }
    if same_bytes(name, b"response") {
        return put_first(&mut places.response, said);
    }
    if same_bytes(name, b"algorithm") {
        return put_first(&mut places.algorithm, said);
    }
    if same_bytes(name, b"qop") {
        return put_first(&mut places.qop, said);
    }
    if same_bytes(name, b"nc") {
        return put_first(&mut places.nc, said);
    }
    if same_bytes(name, b"cnonce") {
        return put_first(&mut places.cnonce, said);
    }
    false
}

/// No item was read yet.
fn no_items<'v>() -> Credentials<'v>
    ensures { result ≡ credentials_from [] }
{
    Credentials {
        username: None,
        realm: None,
        nonce: None,
        uri: None,
        response: None,
        algorithm: None,
        qop: None,
        nc: None,
        cnonce: None,
    }
}

/// The credentials of items that all are in their usual form and of the nine names, which each has its place at once. None
/// says nothing.
fn usual_credentials(bytes: &[u8]) -> Option<Credentials<'_>>
    ensures { IfSome result (λ said. option_and_then from_items (items_in (parts_at 44 bytes.now)) ≡ Some said) }
{
    let mut places = no_items();
    let mut behind = Some(bytes);
    while let Some(text) = behind {
        let (name, value) = usual_parts(text)?;
        if !put_usual(&mut places, name, value.said) {
            return None;
        }
        behind = value.rest;
    }
    Some(places)
}

/// What the value of an Authorization or a Proxy-Authorization says: well-formed Digest credentials, without a name
/// twice (RFC 2617 3.2.2). None of any other value, also of another scheme. `AllocError` is the only refusal.
pub fn credentials_of(alloc: Global, value: &[u8]) -> Result<Option<Credentials<'_>>, AllocError>
    ensures { IfOk result (λ credentials. credentials ≡ credentials_of value.now) }
{
    let (scheme, items) = split_word(value);
    if !same_no_case(scheme, b"Digest") {
        return Ok(None);
    }
    if items.len() <= USUAL_LENGTH {
        if let Some(credentials) = usual_credentials(items) {
            return Ok(Some(credentials));
        }
    }
    match read_items(alloc, items)? {
        Some(items) => credentials_of_items(alloc, &items),
        None => Ok(None),
    }
}
