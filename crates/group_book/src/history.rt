// What a book was opened with, and what it returns at the end.
use crate::turn::Turn;
use calc_refresh::{CalcValue, GroupDefParts};
use trend_num::Rec;

/// A group as it was opened.
#[derive(Drop)]
pub struct GroupOpening {
    /// How many records of each input were taken into account.
    pub versions: Vec<u32>,
    /// The values of each calculation in the windows 0, 1 and so on.
    pub rows: Vec<Vec<CalcValue>>,
    /// The device's clock when the opening ended; 0 without a device.
    pub moment: u64,
    /// How often a call of the device had failed when the opening ended; 0 without a device.
    pub faults: u64,
}

/// All that happened to a group since it was opened, and its state at the end.
#[derive(Drop)]
pub struct GroupHistory {
    /// The group, counted from 0.
    pub group: u32,
    pub def: GroupDefParts,
    /// The definition text of its device; empty without a device.
    pub text: Vec<u8>,
    pub opening: GroupOpening,
    /// The turns that the calls left, the oldest first.
    pub tape: Vec<Turn>,
    /// How many records of each input are taken into account at the end.
    pub versions: Vec<u32>,
    /// These records of each input, the oldest first.
    pub copies: Vec<Vec<Rec>>,
    /// The values of each calculation at the end.
    pub rows: Vec<Vec<CalcValue>>,
    /// How many values were evaluated since the opening.
    pub evals: u64,
}
