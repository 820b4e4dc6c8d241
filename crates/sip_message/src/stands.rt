ghost use Rattle.std.specs.Prelude.{◌≡◌, List, length};
ghost use Rattle.sip_message_fields.specs.declared.field.Field.{Field};
ghost use Rattle.sip_message_form.specs.Text.{AreLinesOf};
ghost use Rattle.sip_message.specs.Stands.{run_ended, run_behind, AreStanding};

use sip_message_fields::slice_before;

/// How a line of a head stands that was taken.
#[derive(Clone, Copy)]
pub(crate) enum Stands {
    /// It is that of the field that it gave.
    AsField,
    /// It is the Content-Length, which gives no field.
    AsLength,
    /// Its field is written in another way.
    Apart,
}

/// What follows a line that was taken, and how it stands.
#[derive(Clone, Copy)]
pub(crate) struct TakenLine<'a> {
    pub after: &'a [u8],
    pub stands: Stands,
}

impl<'a> TakenLine<'a> {
    /// What follows a line whose field is written in another way.
    #[inline(always)]
    pub(crate) fn apart(after: &'a [u8]) -> Self
        ensures { result ≡ record { after = after.entry; stands = Stands.Apart } }
    {
        TakenLine {
            after,
            stands: Stands::Apart,
        }
    }
}

/// How the lines of a head stand that were taken.
#[derive(Clone, Copy)]
pub(crate) enum HeadLayout {
    /// They are those of the fields, one behind the other.
    Going,
    /// They are those of the first so many fields up to the Content-Length, from which on so many bytes were left.
    Ended { count: usize, left: usize },
    /// Some are written in another way.
    Parted,
}

/// The Content-Length is taken, behind so many fields, from which on so many bytes are left. It stands apart, so that how the
/// lines stand takes no register while they are read.
#[inline(never)]
fn end_run(run: &mut HeadLayout, count: usize, left: usize)
    ensures { run.new ≡ run_ended run.old count left }
{
    *run = match *run {
        HeadLayout::Going => HeadLayout::Ended { count, left },
        _ => HeadLayout::Parted,
    };
}

/// One more line is taken that had so many bytes from its front on; then there are so many fields.
#[inline(always)]
pub(crate) fn go_on(run: &mut HeadLayout, stands: Stands, count: usize, left: usize)
    ensures { run.new ≡ run_behind run.old stands count left }
{
    match stands {
        Stands::AsField => {}
        Stands::AsLength => end_run(run, count, left),
        Stands::Apart => *run = HeadLayout::Parted,
    }
}

/// The lines of the fields of a head, of which this is the rest, if they stand so.
#[inline(always)]
pub(crate) fn lines_in<'a>(
    run: HeadLayout,
    count: usize,
    head: &'a [u8],
    rest: &[u8],
) -> Option<&'a [u8]>
    ensures { (fields : List Field) → AreStanding run head.now fields rest.now → count ≡ length fields → AreLinesOf result fields }
{
    let left = match run {
        HeadLayout::Going => rest.len(),
        HeadLayout::Ended { count: first, left } => {
            if first != count {
                return None;
            }
            left
        }
        HeadLayout::Parted => return None,
    };
    if left > head.len() {
        return None;
    }
    Some(slice_before(head, head.len() - left))
}
