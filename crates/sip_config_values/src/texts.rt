ghost use Rattle.toml.specs.View.{items_view};
ghost use Rattle.sip_config_values.specs.Refusals.{Reads};
ghost use Rattle.sip_config_values.specs.Rows as Definitions;

use crate::error::ConfigError;
use crate::grammar::Grammar;
use crate::values::text_as;
use sip_text::{Bytes, Items};
use std::alloc::Global;
use toml::Value;

/// The texts of a list, each of a grammar.
#[tactic(auto, using(crate::proofs::ValueRows::texts_step, crate::proofs::ValueRows::texts_end))]
pub fn texts_of(
    alloc: Global,
    items: &[Value],
    grammar: Grammar,
) -> Result<Items<Bytes>, ConfigError>
    ensures { Reads (λ texts. texts) result (Definitions.texts_of grammar (items_view items.now)) }
{
    let mut texts = Items::new(alloc);
    for item in items {
        let text = text_as(item, grammar)?;
        texts.push(Bytes::copy(alloc, text)?)?;
    }
    Ok(texts)
}
