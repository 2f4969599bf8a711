//! Placing and releasing a hold.
ghost use Rattle.std.specs.Prelude.{◌≡◌, []};
ghost use Rattle.holds.specs.Sheets.{standing, Places, Releases};

use crate::fault::HoldFault;
use crate::sheet::{Hold, HoldSheet};
use arrayvec::ArrayVec;

impl HoldSheet {
    /// A sheet with no holds.
    pub fn new() -> HoldSheet
        ensures { standing result ≡ [] }
    {
        HoldSheet {
            holds: ArrayVec::new(),
        }
    }

    /// Places a hold on a model, by a holder.
    pub fn place(&mut self, model: u16, holder: u16) -> Result<(), HoldFault>
        ensures { Places self.old model holder result self.new }
    {
        if self.place_of(model).is_some() {
            return Err(HoldFault::OnHold);
        }
        if self.holds.is_full() {
            return Err(HoldFault::SheetFull);
        }
        self.holds.push(Hold { model, holder });
        Ok(())
    }

    /// Releases the hold on a model, by its holder.
    pub fn release(&mut self, model: u16, holder: u16) -> Result<(), HoldFault>
        ensures { Releases self.old model holder result self.new }
    {
        let Some(at) = self.place_of(model) else {
            return Err(HoldFault::NotOnHold);
        };
        if self.holds()[at].holder != holder {
            return Err(HoldFault::AnothersHold);
        }
        self.holds.remove(at);
        Ok(())
    }
}
