use sip_config_types::Config;
use sip_replay_script::ScriptLines;
use sip_text::Buffer;

/// What is left of a record of which no event is taken yet.
#[derive(Drop)]
pub struct OldLines {
    pub lines: ScriptLines,
    /// The bytes of the configuration with which its first events were taken.
    pub first: Buffer,
}

/// A record of which no event is taken yet, and what the bytes of its first configuration state.
#[derive(Drop)]
pub struct OldBeginning {
    pub lines: OldLines,
    pub config: Config,
}
