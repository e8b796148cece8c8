//! Where a master is rendered: block by block, in memory that is taken once.
ghost use Rattle.std.specs.Prelude.{◌≡◌, ◌≢◌, ◌+◌, ◌<◌, ◌≤◌, ◌^◌, IfOk, IfErr};
ghost use Rattle.ses_io.specs.Faults.{HasCause};
ghost use Rattle.session_model.specs.Frames.{sounds_of};
ghost use Rattle.session_model.specs.Valid.{IsValid};
ghost use Rattle.session_model.specs.Views.{routes_of};
ghost use Rattle.route_graph.specs.Order.{IsOrder};
ghost use Rattle.playlist_layers.specs.Reads.{IsRead};
ghost use Rattle.offline_render.specs.Frame.{named_channels};
ghost use Rattle.master_render.specs.Offline.{offline_bytes};
ghost use Rattle.master_render.specs.Written.{IsWritten, reading, writing};

use crate::fault::RenderFault;
use crate::form::width;
use crate::samples::{fill, write_samples};
use offline_render::Offline;
use route_graph::{Order, OrderRefusal, none_is_found_without_cycle, order};
use ses_io::{NoMemory, Sink};
use session_model::{Frames, Session};
use std::alloc::Global;
use std::marker::Model;

// The frames of a block; with two channels these are 2,048 samples, and 6,144 bytes in 24 bits.
const BLOCK: u32 = 1024;

/// An order of the session's routes, room for a frame of its tracks, and a block as samples and as bytes. Contracts see
/// the order.
#[derive(Drop)]
pub(crate) struct Desk {
    order: Order,
    offline: Offline,
    samples: Vec<i32>,
    bytes: Vec<u8>,
}

impl Model for Desk {
    ghost use Rattle.std.specs.Prelude.{◌≡◌, ℕ, List, length};

    ghost Value = { List ℕ };

    ghost view = { λ d. d.order };

    ghost invariant = { λ d. (length d.samples.items ≡ 2048) × (length d.bytes.items ≡ 6144) };
}

// An order of the routes, which a valid session has.
fn order_of(alloc: Global, s: &Session) -> Result<Order, NoMemory>
    requires valid { IsValid s.now }
    ensures order { IfOk result (IsOrder (routes_of s.now)) }
{
    // Its contract is the law that no cycle is named.
    none_is_found_without_cycle();
    match order(alloc, s) {
        Ok(order) => Ok(order),
        Err(OrderRefusal::NoMemory) => Err(NoMemory),
        Err(OrderRefusal::Cycle(_)) => unreachable!(),
    }
}

impl Desk {
    /// A desk for this session. No other call takes memory.
    pub(crate) fn new(alloc: Global, s: &Session) -> Result<Desk, NoMemory>
        requires valid { IsValid s.now }
        ensures order { IfOk result (IsOrder (routes_of s.now)) }
    {
        Ok(Desk {
            order: order_of(alloc, s)?,
            offline: Offline::new(alloc, s)?,
            samples: vec![in alloc; 0; 2048]?,
            bytes: vec![in alloc; 0; 6144]?,
        })
    }

    // Writes a block of up to 1,024 frames from a place on.
    fn block<F: Frames, W: Sink>(
        &mut self,
        s: &Session,
        from: u64,
        count: u32,
        reader: &mut F,
        master: &mut W,
    ) -> Result<(), RenderFault>
        requires valid { IsValid s.now }
        requires order { IsOrder (routes_of s.now) self.old }
        requires sources { F.outside.channels reader.old ≡ named_channels s.now }
        requires count { count ≤ 1024 }
        requires near { from + count < 2 ^ 41 }
        ensures written { F.outside.tells reader.old → W.outside.tells → IsWritten W.outside
            (offline_bytes (sounds_of (F.outside.frames reader.old)) s.now from count)
            master.old master.new result }
        ensures read { IsRead F.outside F.rest reader.old reader.new (reading result) }
        ensures cause { HasCause (W.outside.faults master.old) (W.outside.faults master.new)
            (writing result) }
        ensures memory { IfErr result (λ e. e ≢ RenderFault.NoMemory) }
        ensures same { self.new ≡ self.old }
    {
        let samples = self.samples.as_mut_slice();
        fill(
            &mut self.offline,
            s,
            &self.order,
            reader,
            from,
            count,
            samples,
        )
        .map_err(|_| RenderFault::ReadFault)?;
        let front = &self.samples.as_slice()[..count as usize * width(s)];
        write_samples(front, s.bits, self.bytes.as_mut_slice(), master)
    }

    /// Writes so many frames from a place on, block by block.
    pub(crate) fn write<F: Frames, W: Sink>(
        &mut self,
        s: &Session,
        from: u64,
        frames: u32,
        reader: &mut F,
        master: &mut W,
    ) -> Result<(), RenderFault>
        requires valid { IsValid s.now }
        requires order { IsOrder (routes_of s.now) self.old }
        requires sources { F.outside.channels reader.old ≡ named_channels s.now }
        requires near { from + frames < 2 ^ 41 }
        ensures written { F.outside.tells reader.old → W.outside.tells → IsWritten W.outside
            (offline_bytes (sounds_of (F.outside.frames reader.old)) s.now from frames)
            master.old master.new result }
        ensures read { IsRead F.outside F.rest reader.old reader.new (reading result) }
        ensures cause { HasCause (W.outside.faults master.old) (W.outside.faults master.new)
            (writing result) }
        ensures memory { IfErr result (λ e. e ≢ RenderFault.NoMemory) }
    {
        let mut done = 0;
        while done < frames {
            let count = (frames - done).min(BLOCK);
            self.block(s, from + u64::from(done), count, reader, master)?;
            done += count;
        }
        Ok(())
    }
}
