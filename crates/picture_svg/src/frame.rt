//! What stands around and behind the columns: the lines of the scale, the caption, and the
//! strips' names and tracks.
ghost use Rattle.std.specs.Prelude.{◌≡◌, ◌<◌, ◌^◌, ◌++◌, OnOk};
ghost use Rattle.picture_svg.specs.Svg.{axis, backdrop, frame, strip_end, track, tracks, whole};

use crate::shapes::{Area, push_label, push_label_tag, push_rect};
use picture_xml::{push_attribute, push_close_tag, push_number, push_number_attribute};
use std::alloc::AllocError;

/// Where the columns begin.
pub const LEFT: u64 = 160;

/// How much room the columns have.
pub const ROOM: u64 = 800;

/// How far above 0 the top of the scale stands.
pub const RISE: u64 = 300;

/// Where 0 stands.
pub const BASE: u64 = 436;

/// How high a strip is.
pub const STRIP: u64 = 32;

/// Where the strip of a worker ends.
pub fn strip_end(worker: u32) -> u64
    ensures { result ≡ strip_end worker }
{
    40 * u64::from(worker) + 520
}

/// How high the whole picture is.
pub fn whole(workers: u32) -> u64
    ensures { result ≡ whole workers }
{
    40 * u64::from(workers) + 500
}

/// Appends the ground on which all stands.
#[tactic(auto, unfolding(crate::specs::Svg::backdrop))]
pub fn push_backdrop(text: &mut Vec<u8>, workers: u32) -> Result<(), AllocError>
    ensures { OnOk result (text.new.items ≡ text.old.items ++ backdrop workers) }
{
    let area = Area {
        x: 0,
        y: 0,
        width: 1000,
        height: whole(workers),
    };
    push_rect(text, b"backdrop", area)
}

#[tactic(auto, unfolding(crate::specs::Svg::axis, picture_xml::specs::Xml::leaf))]
fn push_axis(text: &mut Vec<u8>, y: u64) -> Result<(), AllocError>
    ensures { OnOk result (text.new.items ≡ text.old.items ++ axis y) }
{
    text.extend_from_slice(b"<line")?;
    push_attribute(text, b"class", b"axis")?;
    push_number_attribute(text, b"x1", LEFT)?;
    push_number_attribute(text, b"y1", y)?;
    push_number_attribute(text, b"x2", LEFT + ROOM)?;
    push_number_attribute(text, b"y2", y)?;
    text.extend_from_slice(b"/>")
}

/// Appends the lines at the top of the scale and at 0, with their numbers, and the caption.
#[tactic(auto, unfolding(crate::specs::Svg::frame, picture_xml::specs::Xml::element))]
pub fn push_frame(text: &mut Vec<u8>, peak: u64) -> Result<(), AllocError>
    ensures { OnOk result (text.new.items ≡ text.old.items ++ frame peak) }
{
    push_axis(text, BASE - RISE)?;
    push_label_tag(text, b"start", LEFT, BASE - RISE - 8)?;
    push_number(text, peak)?;
    push_close_tag(text, b"text")?;
    push_axis(text, BASE)?;
    push_label(text, b"end", LEFT - 12, BASE + 8, b"0")?;
    push_label(
        text,
        b"caption",
        LEFT + 400,
        BASE + 32,
        b"in the order of the trace",
    )
}

// Appends the name of a worker's strip, and what stands behind it.
#[tactic(auto, unfolding(crate::specs::Svg::track, picture_xml::specs::Xml::element))]
fn push_track(text: &mut Vec<u8>, worker: u32) -> Result<(), AllocError>
    ensures { OnOk result (text.new.items ≡ text.old.items ++ track worker) }
{
    let end = strip_end(worker);
    push_label_tag(text, b"end", LEFT - 12, end - 8)?;
    text.extend_from_slice(b"worker ")?;
    push_number(text, u64::from(worker))?;
    push_close_tag(text, b"text")?;
    let area = Area {
        x: LEFT,
        y: end - STRIP,
        width: ROOM,
        height: STRIP,
    };
    push_rect(text, b"track", area)?;
    text.extend_from_slice(b"\n")
}

/// Appends the names and the tracks of all workers.
#[tactic(auto, unfolding(crate::specs::Svg::tracks))]
pub fn push_tracks(text: &mut Vec<u8>, workers: u32) -> Result<(), AllocError>
    ensures { OnOk result (text.new.items ≡ text.old.items ++ tracks workers) }
{
    for worker in 0..workers {
        push_track(text, worker)?;
    }
    Ok(())
}
