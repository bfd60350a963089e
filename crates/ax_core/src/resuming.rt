//! A run that goes on from closed parts.
ghost use Rattle.std.specs.Prelude.{◌≡◌, drop, map, IfOk, OnOk};
ghost use Rattle.ax_trees.specs.Lists.{NoneTwice};
ghost use Rattle.ax_run_rules.specs.States.{FrameRun};
ghost use Rattle.ax_core.specs.Standing.{IsWhole};
ghost use Rattle.ax_core.specs.Starting.{CanResume, resumed, seat_on, seats_by, readers_by, put_in, put_all};

use crate::places::Places;
use crate::queue::Queue;
use crate::reading::Reader;
use crate::seat::Seat;
use crate::starting::trees_of;
use crate::{Closed, Core};
use ax_ask::TimedQueries;
use ax_base::NoMemory;
use ax_frame::{Counts, Frame, Frames, Numbers};
use ax_script::{FrameScript, FrameScripts, ReaderScripts, Script};
use ax_tree::Packet;
use std::alloc::Global;
use std::collections::VecDeque;

impl Core {
    /// The state of a script's run whose frames and forest are these, with so many operations of each list behind it. Where
    /// there is no memory, all are given up. Linear in the frames and readers, the packets that wait and the operations behind
    /// it.
    pub fn resume(
        alloc: Global,
        script: Script,
        done: Closed,
        asked: Counts,
    ) -> Result<Core, NoMemory>
        requires { CanResume script done.0.items done.1 asked }
        ensures state { IfOk result (λ core. core ≡ resumed script done.0.items done.1 asked) }
        ensures whole { IfOk result IsWhole }
    {
        let (frames, parts) = done;
        let trees = trees_of(alloc, script.frames.as_slice())?;
        let places = Places::new(alloc, trees)?;
        let mut seats = seats_on(alloc, script.frames, frames, &asked.frames)?;
        put_packets(&places, &mut seats, parts.waiting)?;
        let readers = readers_on(alloc, script.readers, &asked.readers)?;
        let mut browser = Queue::of(script.browser);
        browser.skip(asked.browser);
        Ok(Core {
            seats,
            places,
            browser,
            readers,
            forest: parts.forest,
            alloc,
        })
    }
}

/// A frame of which so many operations are done, and of which no packet waits.
fn seat_on(alloc: Global, script: FrameScript, frame: Frame, done: u64) -> Seat
    ensures { result ≡ seat_on script frame done }
{
    let mut left = Queue::of(script.ops);
    left.skip(done);
    Seat::with(frame, left, VecDeque::new(alloc))
}

/// The script's frames, of which so many operations are done, and of which no packet waits.
fn seats_on(
    alloc: Global,
    scripts: FrameScripts,
    frames: Frames,
    done: &Numbers,
) -> Result<Vec<Seat>, NoMemory>
    ensures { IfOk result (λ seats. seats.items ≡ seats_by scripts frames.items done.now.items) }
{
    let mut seats = Vec::new(alloc);
    let scripts = scripts.into_vec().into_iter();
    for ((script, frame), count) in scripts.zip(frames).zip(done.iter()) {
        seats.push(seat_on(alloc, script, frame, *count))?;
    }
    Ok(seats)
}

/// Puts each packet behind those of its tree.
fn put_packets(places: &Places, seats: &mut Vec<Seat>, packets: Vec<Packet>) -> Result<(), NoMemory>
    requires places { places.now ≡ map (λ (f : FrameRun). f.tree) seats.old.items }
    requires apart { NoneTwice places.now }
    ensures { OnOk result (seats.new.items ≡ map (put_all packets.items) seats.old.items) }
{
    for packet in packets {
        put_packet(places, seats, packet)?;
    }
    Ok(())
}

/// Puts a packet behind those of its tree.
fn put_packet(places: &Places, seats: &mut Vec<Seat>, packet: Packet) -> Result<(), NoMemory>
    requires places { places.now ≡ map (λ (f : FrameRun). f.tree) seats.old.items }
    requires apart { NoneTwice places.now }
    ensures put { OnOk result (seats.new.items ≡ map (put_in packet) seats.old.items) }
{
    match places.find(packet.tree) {
        Some(at) => seats[at].put(packet),
        None => Ok(()),
    }
}

/// What is left of the queries of a reader, of which so many are asked.
fn reader_on(queries: TimedQueries, asked: u64) -> Reader
    ensures { result ≡ drop asked queries }
{
    let mut left = Queue::of(queries);
    left.skip(asked);
    left
}

/// The script's readers, of whose queries so many are asked.
fn readers_on(
    alloc: Global,
    scripts: ReaderScripts,
    asked: &Numbers,
) -> Result<Vec<Reader>, NoMemory>
    ensures { IfOk result (λ readers. readers.items ≡ readers_by scripts asked.now.items) }
{
    let mut readers = Vec::new(alloc);
    let scripts = scripts.into_vec().into_iter();
    for (queries, count) in scripts.zip(asked.iter()) {
        readers.push(reader_on(queries, *count))?;
    }
    Ok(readers)
}
