use crate::kept_aor::KeptAor;
use crate::rows::BindingRows;

/// What is kept of the bindings of an address of record, beside the address.
pub(crate) struct AorBindings {
    pub(crate) aor: KeptAor,
    pub(crate) rows: BindingRows,
}

/// Written out, so that it is proved once and not wherever one is dropped.
impl Drop for AorBindings {
    fn drop(self) {
        let AorBindings { aor: _, rows: _ } = self;
    }
}
