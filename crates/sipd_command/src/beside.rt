//! What is looked at and written beside a server's traffic: the configuration's file, where it may change, and the file that says how the server is.
ghost use Rattle.std.specs.Prelude.{◌≡◌, is_some, IfOk, IfSome};

use crate::status_file::StatusFile;
use sip_text::Bytes;
use sipd_arguments::ServeCall;
use sipd_exit::Stated;
use sipd_reload::{PathFile, Watch, WatchedFile};
use sipd_status::{Status, StatusPlace};
use std::alloc::AllocError;
use std::rt::Files;

/// What is looked at and written beside a server's traffic.
pub struct Beside<F: WatchedFile, S: StatusPlace> {
    /// What looks at the configuration's file, where that is asked for.
    pub watch: Option<Watch<F>>,
    /// What says how the server is, where that is asked for.
    pub status: Option<Status<S>>,
}

/// What looks at a server's own files, and writes there.
pub type BesideFiles<'a, R> = Beside<PathFile<'a, R>, StatusFile<'a, R>>;

/// Lets what looks at a file go. It stands apart, so that its cases don't stand beside those of what is written.
fn let_go<F: WatchedFile>(_watch: Option<Watch<F>>) {}

/// Written out, so that it is proved once and not wherever one is dropped.
impl<F: WatchedFile, S: StatusPlace> Drop for Beside<F, S> {
    fn drop(self) {
        let Beside { watch, status: _ } = self;
        let_go(watch);
    }
}

impl<F: WatchedFile, S: StatusPlace> Beside<F, S> {
    /// Each of them alone.
    pub fn apart(self) -> (Option<Watch<F>>, Option<Status<S>>)
        ensures watch { result.0 ≡ self.watch }
        ensures status { result.1 ≡ self.status }
    {
        let Beside { watch, status } = self;
        (watch, status)
    }
}

/// What looks at the configuration's file while it serves, where that is asked for: what the file stated is in force.
fn watch_of<'a, R: Files + AllocGlobal>(
    rt: &'a R,
    call: &'a ServeCall,
    stated: &Stated,
) -> Result<Option<Watch<PathFile<'a, R>>>, AllocError>
    ensures asked { IfOk result (λ watch. is_some watch ≡ call.now.reload) }
    ensures in_force { IfOk result (λ watch. IfSome watch (λ w. w.in_force ≡ stated.now.bytes)) }
{
    if !call.reload {
        return Ok(None);
    }
    let in_force = Bytes::copy(rt.alloc(), stated.bytes.as_slice())?;
    let file = PathFile::new(rt, call.config.as_str());
    Ok(Some(Watch::new(file, in_force, 0)))
}

/// What says how the server is, in the file that is named for that.
fn status_of<'a, R: Files + AllocGlobal>(
    rt: &'a R,
    call: &ServeCall,
) -> Result<Option<Status<StatusFile<'a, R>>>, AllocError>
    ensures { IfOk result (λ status. is_some status ≡ is_some call.now.status) }
{
    let Some(path) = &call.status else {
        return Ok(None);
    };
    let file = StatusFile::new(rt, path.as_str())?;
    Ok(Some(Status::new(rt.alloc(), file)?))
}

/// What is looked at and written beside the traffic, as a command line asks for.
pub fn beside_of<'a, R: Files + AllocGlobal>(
    rt: &'a R,
    call: &'a ServeCall,
    stated: &Stated,
) -> Result<BesideFiles<'a, R>, AllocError>
    ensures watched { IfOk result (λ beside. is_some beside.watch ≡ call.now.reload) }
    ensures in_force { IfOk result (λ beside. IfSome beside.watch (λ w. w.in_force ≡ stated.now.bytes)) }
    ensures told { IfOk result (λ beside. is_some beside.status ≡ is_some call.now.status) }
{
    let watch = watch_of(rt, call, stated)?;
    match status_of(rt, call) {
        Ok(status) => Ok(Beside { watch, status }),
        Err(e) => {
            let_go(watch);
            Err(e)
        }
    }
}
