/// What becomes of a server whose record can't be written.
#[derive(Clone, Copy, PartialEq, Eq)]
pub enum RecordFault {
    /// It goes on, and records nothing more.
    GoOn,
    /// It ends.
    End,
}

/// When what was recorded is put on the disk.
#[derive(Clone, Copy)]
pub enum RecordSync {
    /// When the system does that by itself.
    Never,
    /// Within a second or so.
    Second,
    /// Before anything is sent for it.
    Each,
}

/// Where the record of a server is made.
pub enum RecordPlace {
    /// In a new file, going on from the record of another one where that is named.
    File {
        path: String,
        resume: Option<String>,
    },
    /// In a new file of this folder, named by the time, going on from the newest record there.
    Folder(String),
}

/// Written out, so that it is proved once and not wherever one is dropped.
impl Drop for RecordPlace {
    fn drop(self) {
        match self {
            RecordPlace::File { path: _, resume: _ } => {}
            RecordPlace::Folder(_) => {}
        }
    }
}
