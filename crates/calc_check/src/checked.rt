// Checked calculations.
ghost use Rattle.std.specs.Prelude.{◌≡◌, ◌↔◌, ◌^◌, ◌<◌, map, vec_len, Err, IfOk, IfErr, IsTrue, None, Some};
ghost use Rattle.calc_check.specs.declared.refusal.CheckNo.{CheckNo};
ghost use Rattle.calc_check.specs.Group.{Group, calculation, group_of, fault_of, IsToldOf};

use crate::definition::{CalcDef, copied_defs, is_same_defs, is_same_names};
use crate::naming::first_fault;
use crate::refusal::CheckNo;
use std::alloc::Global;
use std::marker::Model;
use trend_num::{Name, WantOfMemory};

/// Calculations of a group. Every name in them stands for an input or an earlier calculation.
#[derive(Drop)]
pub struct Checked {
    alloc: Global,
    inputs: Vec<Name>,
    calcs: Vec<CalcDef>,
}

impl Model for Checked {
    ghost use Rattle.std.specs.Prelude.{◌≡◌, None};
    ghost use Rattle.calc_check.specs.Group.{Group, group_of, fault_of};
    ghost use Rattle.calc_check.specs.Code.{group_code};

    ghost Value = { Group };

    ghost coded = { group_code };

    ghost view = { λ c. group_of c.inputs.items c.calcs.items };

    ghost invariant = { λ c. fault_of (group_of c.inputs.items c.calcs.items) ≡ None };
}

/// Checks that every name in the formulas stands for something: a measured name for an input, and a name after `calc`
/// for an earlier calculation. Otherwise it reports the first name that stands for nothing, or want of memory.
pub fn check(alloc: Global, inputs: &[Name], calcs: Vec<CalcDef>) -> Result<Checked, CheckNo>
    requires { vec_len calcs < 2 ^ 32 }
    ensures kept { IfOk result (λ checked. checked ≡ group_of inputs.now calcs.items) }
    ensures known { IfOk result (λ checked. fault_of checked ≡ None) }

    // The first fault is reported, no matter how much memory there is.
    ensures first { (why : CheckNo) → fault_of (group_of inputs.now calcs.items) ≡ Some why → result ≡ Err why }
    ensures fault { IfErr result (IsToldOf (fault_of (group_of inputs.now calcs.items))) }
{
    if let Some(fault) = first_fault(inputs, &calcs) {
        return Err(fault);
    }
    let inputs = Vec::from_slice(alloc, inputs)?;
    Ok(Checked {
        alloc,
        inputs,
        calcs,
    })
}

impl Checked {
    /// Returns the calculations in order.
    pub fn defs(&self) -> &[CalcDef]
        ensures calcs { map calculation result.now ≡ self.now.calcs }
        ensures known { fault_of self.now ≡ None }
    {
        &self.calcs
    }

    /// Returns the names of the inputs in order.
    pub fn inputs(&self) -> &[Name]
        ensures { result.now ≡ self.now.inputs }
    {
        &self.inputs
    }

    /// Returns a copy of the calculations. The one error is want of memory.
    pub fn copy(&self) -> Result<Checked, WantOfMemory>
        ensures { IfOk result (λ copy. copy ≡ self.now) }
    {
        let inputs = Vec::from_slice(self.alloc, &self.inputs)?;
        let calcs = copied_defs(self.alloc, &self.calcs)?;
        Ok(Checked {
            alloc: self.alloc,
            inputs,
            calcs,
        })
    }

    /// Returns whether both have the same inputs and the same calculations, each in the same order.
    pub fn same(&self, other: &Checked) -> bool
        ensures { IsTrue result ↔ (self.now ≡ other.now) }
    {
        is_same_names(&self.inputs, &other.inputs) && is_same_defs(&self.calcs, &other.calcs)
    }
}
