//! The words of lines.
ghost use Rattle.std.specs.Prelude.{◌≡◌};
ghost use Rattle.ax_run_rules.specs.Writing.{yes_no};
ghost use Rattle.ax_run_rules.specs.LineText.{touch_name, ok_or_gone, data_text};
ghost use Rattle.ax_run_rules.specs.ReplyText.{order_name};

use ax_ask::FrameOpName;
use std::cmp::Ordering;

pub(crate) fn touch_name(below: bool) -> &'static str
    ensures { result.now ≡ touch_name below }
{
    if below {
        FrameOpName::TouchBelow.name()
    } else {
        FrameOpName::Touch.name()
    }
}

pub(crate) fn ok_or_gone(gone: bool) -> &'static str
    ensures { result.now ≡ ok_or_gone gone }
{
    if gone { "gone" } else { "ok" }
}

pub(crate) fn data_text(with_data: bool) -> &'static str
    ensures { result.now ≡ data_text with_data }
{
    if with_data { " data" } else { "" }
}

pub(crate) fn yes_no(flag: bool) -> &'static str
    ensures { result.now ≡ yes_no flag }
{
    if flag { "yes" } else { "no" }
}

pub(crate) fn order_name(order: Ordering) -> &'static str
    ensures { result.now ≡ order_name order }
{
    match order {
        Ordering::Less => "Less",
        Ordering::Equal => "Equal",
        Ordering::Greater => "Greater",
    }
}
