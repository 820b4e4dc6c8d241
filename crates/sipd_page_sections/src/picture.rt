//! How many addresses had a live binding over the time, as a picture.
ghost use Rattle.std.specs.Prelude.{◌≡◌, ◌≤◌, ◌++◌, length, OnOk};
ghost use Rattle.sipd_page_sections.specs.Picture as Definitions;

use crate::notes::STEP;
use sip_text::Bytes;
use sipd_calls::push_start_at;
use std::alloc::AllocError;

/// The most addresses; one, if there was none.
#[tactic(auto, using(std::proofs::lemmas::List::at_drop_more, std::proofs::lemmas::List::drop_all))]
fn most_of(live: &[u64]) -> u64
    ensures { result ≡ Definitions.most_of live.now }
{
    let mut most = 1;
    for value in live {
        most = (*value).max(most);
    }
    most
}

/// How far a moment is to the right.
fn right(place: u64, count: u64) -> u64
    requires many { 1 ≤ count }
    ensures { result ≡ Definitions.right place count }
{
    (place.saturating_mul(900) / count).saturating_add(40)
}

/// How far a number is up.
fn up(value: u64, most: u64) -> u64
    requires most { 1 ≤ most }
    ensures { result ≡ Definitions.up value most }
{
    180u64.saturating_sub(value.saturating_mul(160) / most)
}

/// Adds that the line goes to a moment, and up or down.
fn put_point(
    out: &mut Bytes,
    place: u64,
    count: u64,
    most: u64,
    value: u64,
) -> Result<(), AllocError>
    requires many { 1 ≤ count }
    requires most { 1 ≤ most }
    ensures { OnOk result (out.new ≡ out.old ++ Definitions.point place count most value) }
{
    out.extend(b"H")?;
    out.push_decimal(right(place, count))?;
    out.extend(b"V")?;
    out.push_decimal(up(value, most))
}

#[tactic(auto, using(crate::proofs::Points::one_more, crate::proofs::Points::at_end))]
fn put_points(out: &mut Bytes, count: u64, most: u64, live: &[u64]) -> Result<(), AllocError>
    requires many { 1 ≤ count }
    requires most { 1 ≤ most }
    ensures { OnOk result (out.new ≡ out.old ++ Definitions.points 0 count most live.now) }
{
    for (place, value) in live.iter().enumerate() {
        put_point(out, place as u64, count, most, *value)?;
    }
    Ok(())
}

/// Adds the line.
fn put_line(out: &mut Bytes, most: u64, live: &[u64]) -> Result<(), AllocError>
    requires most { 1 ≤ most }
    requires some { 1 ≤ length live.now }
    ensures { OnOk result (out.new ≡ out.old ++ Definitions.line_by most live.now) }
{
    out.extend(b"<path class=\"live\" d=\"M40 180")?;
    put_points(out, live.len() as u64, most, live)?;
    out.extend(b"H940\"/>\n")
}

/// Adds the most and none beside the axes.
fn put_scale(out: &mut Bytes, most: u64) -> Result<(), AllocError>
    ensures { OnOk result (out.new ≡ out.old ++ Definitions.scale_text most) }
{
    out.extend(b"<text x=\"34\" y=\"24\" class=\"end\">")?;
    out.push_decimal(most)?;
    out.extend(b"</text>\n<text x=\"34\" y=\"184\" class=\"end\">0</text>\n")
}

/// Adds the first moment under them.
fn put_first(out: &mut Bytes, offset: i16, at: u64) -> Result<(), AllocError>
    ensures { OnOk result (out.new ≡ out.old ++ Definitions.first_text offset at) }
{
    out.extend(b"<text x=\"40\" y=\"204\">")?;
    push_start_at(out, offset, at)?;
    out.extend(b"</text>\n")
}

/// Adds the last one.
fn put_last(out: &mut Bytes, offset: i16, at: u64) -> Result<(), AllocError>
    ensures { OnOk result (out.new ≡ out.old ++ Definitions.last_text offset at) }
{
    out.extend(b"<text x=\"940\" y=\"204\" class=\"end\">")?;
    push_start_at(out, offset, at)?;
    out.extend(b"</text>\n</svg>\n")
}

/// Adds what stands before the line.
fn put_axes(out: &mut Bytes) -> Result<(), AllocError>
    ensures { OnOk result (out.new ≡ out.old ++ Definitions.picture_begin) }
{
    out.extend(
        b"<svg xmlns=\"http://www.w3.org/2000/svg\" viewBox=\"0 0 980 215\" width=\"980\" height=\"215\">\n\
          <path class=\"axis\" d=\"M40 20H940M40 180H940\"/>\n",
    )
}

/// The moment of the look so many looks before the last.
fn looked_at(at: u64, before: u64) -> u64
    ensures { result ≡ Definitions.looked_at at before }
{
    (at / STEP).saturating_sub(before).saturating_mul(STEP)
}

/// Adds a picture of some looks.
fn put_drawn(
    out: &mut Bytes,
    offset: i16,
    at: u64,
    most: u64,
    live: &[u64],
) -> Result<(), AllocError>
    requires most { 1 ≤ most }
    requires some { 1 ≤ length live.now }
    ensures { OnOk result (out.new ≡ out.old ++ Definitions.drawn offset at most live.now) }
{
    let before = (live.len() as u64).saturating_sub(1);
    put_axes(out)?;
    put_line(out, most, live)?;
    put_scale(out, most)?;
    put_first(out, offset, looked_at(at, before))?;
    put_last(out, offset, looked_at(at, 0))
}

/// Adds the picture of a record whose last step was at a moment.
#[tactic(auto, using(crate::proofs::Looks::most_some))]
pub(crate) fn put_picture(
    out: &mut Bytes,
    offset: i16,
    at: u64,
    live: &[u64],
) -> Result<(), AllocError>
    ensures { OnOk result (out.new ≡ out.old ++ Definitions.picture_text offset at live.now) }
{
    let count = live.len();
    if count == 0 {
        return out.extend(
            b"<p>The record is too short for a picture: it is looked at every five minutes.</p>\n",
        );
    }
    put_drawn(out, offset, at, most_of(live), live)
}
