// A question about a group's rows.
ghost use Rattle.std.specs.Prelude.{◌≡◌, ◌↔◌, ◌<◌, IfOk, IsSome, OnErr, length};
ghost use Rattle.sheet_law.specs.{complete_windows};
ghost use Rattle.group_book.specs.Told.{IsAsked};

use crate::book::Book;
use crate::publish::make_place;
use crate::turn::Turn;
use calc_refresh::CalcValue;
use disk_model::Disk;
use tag_cell::Receipt;
use trend_num::WantOfMemory;

impl<D: Disk> Book<D> {
    /// Answers a reader's question. Returns the value of a calculation in a window, as the rows have it, and a receipt
    /// with the place of the answer on the tape. The value is `None` if there is no such calculation, or the window is
    /// not complete. The only error is want of memory; the book is then unchanged.
    pub fn ask(
        &mut self,
        reader: u32,
        row: u64,
        calc: u32,
        k: u64,
    ) -> Result<(Receipt, Option<CalcValue>), WantOfMemory>
        ensures asked { IfOk result (λ told. IsAsked reader row calc k told.1 self.old self.new) }
        ensures there { IfOk result (λ told. IsSome told.1 ↔ ((calc < length self.old.sheet.group.calcs)
            × (k < complete_windows self.old.sheet.grid self.old.sheet.copies))) }
        ensures place { IfOk result (λ told. told.0.place ≡ length self.old.tape) }
        ensures unchanged { OnErr result (self.new ≡ self.old) }
    {
        make_place(&mut self.tape)?;
        let place = self.tape.len() as u64;
        let reply = self.sheet.row(calc, k);
        self.tape.push_reserved(Turn::Ask {
            reader,
            row,
            calc,
            k,
            reply,
        });
        Ok((Receipt { place }, reply))
    }
}
