use crate::message_view::View;

/// Why bytes are not viewed as a message: the refusals of `read`, of which a short body carries the view.
pub enum ViewRefusal<'a> {
    NoMemory,
    NotSip,
    BadField,
    ShortBody(View<'a>),
    TooLong,
    TooManyFields,
}

/// Written out, so that it is proved once and not wherever a refusal is dropped.
impl<'a> Drop for ViewRefusal<'a> {
    fn drop(self) {
        match self {
            ViewRefusal::ShortBody(_) => {}
            ViewRefusal::NoMemory
            | ViewRefusal::NotSip
            | ViewRefusal::BadField
            | ViewRefusal::TooLong
            | ViewRefusal::TooManyFields => {}
        }
    }
}
