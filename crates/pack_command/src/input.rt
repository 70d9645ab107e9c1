// Reads all of the input, a piece at a time.
ghost use Rattle.std.specs.Prelude.{◌≡◌, ◌+◌, ◌<◌, ◌≤◌, [], List, ℕ, true, length, take, slice_range, IfOk, IfErr, OnOk, OnErr, vec_len};
ghost use Rattle.std.specs.Io.KnownBytes.{Keeps};
ghost use Rattle.trend_num.specs.{TuningInRange, Tuning};
ghost use Rattle.trend_model.specs.{Origin};
ghost use Rattle.byte_io.specs.Outside.{CountsOneFault};
ghost use Rattle.point_text.specs.{HasNoFeed, ReadSame};
ghost use Rattle.pack_command.specs.Pack.{IsPackRefusal, origin_of};
ghost use Rattle.pack_command.specs.Coming.{HasCome, IsAllRead, IsReadAfter, IsReady};

use crate::intake::Intake;
use byte_io::{Failed, Source};
use plant_status::{FileId, Status, What};
use point_text::short_line;
use std::alloc::{AllocError, Global};
use std::sync::ledger::{Blank, Ledger};
use trend_num::{Steps, Tuning};

// The most bytes of standard input.
const MAX_FILE_BYTES: u64 = 67_108_864;

// How many bytes are read at once at most.
const PIECE: usize = 262_144;

// The most bytes of a line that has begun and not ended. Such a line is kept before the next piece.
const BEGUN: usize = 64;

// Reads the input to its end, and takes the values of its rows. If it does not come to the end, the status says why.
pub(crate) fn read_input<L: Ledger, I: Source>(
    alloc: Global,
    tuning: Tuning,
    input: &mut I,
    blank: Blank,
) -> Result<Intake, Status>
    requires tuned { TuningInRange tuning }
    requires name { blank.name ≡ L.name }
    requires parts { blank.parts ≡ L.parts }
    requires some { 0 < L.parts }
    ensures read { IfOk result (λ i.
        IsAllRead (origin_of tuning) (I.meaning input.old) (I.meaning input.new) i.core i.rows i.standing) }
    ensures refused { IfErr result (IsPackRefusal tuning (I.meaning input.old) (I.meaning input.new)) }
{
    let Ok(mut intake) = Intake::new(alloc, tuning) else {
        return Err(Status::WantOfMemory);
    };
    let Ok(mut buffer) = new_buffer(alloc) else {
        return Err(Status::WantOfMemory);
    };
    let mut steps = Steps::<L>::new(blank);
    match read_pieces(&mut intake, buffer.as_mut_slice(), input, &mut steps) {
        Ok(()) => Ok(intake),
        Err(why) => Err(why),
    }
}

// The same by pieces, each of which is read into this buffer after the begun line.
fn read_pieces<L: Ledger, I: Source>(
    intake: &mut Intake,
    buffer: &mut [u8],
    input: &mut I,
    steps: &mut Steps<L>,
) -> Result<(), Status>
    requires ready { IsReady intake.old.core intake.old.rows }
    requires size { length buffer.old ≡ BEGUN + PIECE }
    ensures read { OnOk result ((o : Origin)
        → HasCome true o [] [] intake.old.core intake.old.rows intake.old.standing
        → IsAllRead o (I.meaning input.old) (I.meaning input.new) intake.new.core intake.new.rows intake.new.standing) }
    ensures refused { IfErr result (λ why. (tuning : Tuning)
        → IsPackRefusal tuning (I.meaning input.old) (I.meaning input.new) why) }
{
    let mut begun = 0;
    let mut total = 0;
    loop {
        let room = MAX_FILE_BYTES - total;
        let wanted = room.min(PIECE as u64 - 1) as usize + 1;
        let Ok(count) = read_after(input, buffer, begun, wanted) else {
            return Err(Status::ReadFault {
                file: FileId::Input,
            });
        };
        if count == 0 {
            intake.take_last(&buffer[..begun], steps);
            return Ok(());
        }
        if count as u64 > room {
            return Err(Status::Limit {
                what: What::FileBytes,
                number: MAX_FILE_BYTES + 1,
            });
        }
        total += count as u64;
        begun = take_piece(intake, buffer, begun + count, steps);
    }
}

// Room for a begun line and a piece after it.
fn new_buffer(alloc: Global) -> Result<Vec<u8>, AllocError>
    ensures { IfOk result (λ v. vec_len v ≡ BEGUN + PIECE) }
{
    vec![in alloc; 0; BEGUN + PIECE]
}

// Reads at most `wanted` bytes into a buffer, after the `begun` ones that are there.
fn read_after<I: Source>(
    input: &mut I,
    buffer: &mut [u8],
    begun: usize,
    wanted: usize,
) -> Result<usize, Failed>
    requires some { 0 < wanted }
    requires room { begun + wanted ≤ length buffer.old }
    ensures read { IfOk result (λ n. IsReadAfter (I.meaning input.old) (I.meaning input.new) begun n buffer.old buffer.new) }
    ensures few { IfOk result (λ n. n ≤ wanted) }
    ensures fault { OnErr result (CountsOneFault (I.meaning input.old) (I.meaning input.new)) }
    ensures kept { OnErr result (Keeps (I.meaning input.old).content (I.meaning input.new).content) }
{
    match input.read(&mut buffer[begun..begun + wanted]) {
        Ok(count) => Ok(count),
        Err(Failed) => Err(Failed),
    }
}

// Takes the rows at the front of a buffer, and moves the begun line to the front. It returns the length of that line.
fn take_piece<L: Ledger>(
    intake: &mut Intake,
    buffer: &mut [u8],
    filled: usize,
    steps: &mut Steps<L>,
) -> usize
    requires ready { IsReady intake.old.core intake.old.rows }
    requires within { filled ≤ length buffer.old }
    requires room { BEGUN ≤ length buffer.old }
    ensures ready { IsReady intake.new.core intake.new.rows }
    ensures short { result ≤ BEGUN }
    ensures begun { HasNoFeed (take result buffer.new) }
    ensures come { (o : Origin) (bytes : List ℕ)
        → HasCome true o bytes (take filled buffer.old) intake.old.core intake.old.rows intake.old.standing
        → HasCome true o bytes (take result buffer.new) intake.new.core intake.new.rows intake.new.standing }
{
    let left = intake.take_lines(&buffer[..filled], steps);
    bring_forward(buffer, filled - left, filled)
}

// Moves a begun line to the front of a buffer. If it is too long to have a point, a short line that reads the same
// replaces it. It returns the length of the line there.
fn bring_forward(buffer: &mut [u8], from: usize, to: usize) -> usize
    requires order { from ≤ to }
    requires within { to ≤ length buffer.old }
    requires room { BEGUN ≤ length buffer.old }
    requires begun { HasNoFeed (slice_range buffer.old from to) }
    ensures short { result ≤ BEGUN }
    ensures begun { HasNoFeed (take result buffer.new) }
    ensures same { ReadSame (slice_range buffer.old from to) (take result buffer.new) }
{
    if to - from > BEGUN {
        let short = short_line(&buffer[from..to]);
        buffer[..short.len()].copy_from_slice(short);
        return short.len();
    }
    buffer.copy_within(from..to, 0);
    to - from
}
