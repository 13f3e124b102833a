//! A record that accounts for its plan: so the accounts can be met, by what its actors leave.
ghost use Rattle.std.specs.Prelude.{◌≡◌, ℕ, List, Ok};
ghost use Rattle.vmx_shared_area.specs.Layout.{image_of};
ghost use Rattle.vmx_shared_area.specs.Tells.{Reads};
ghost use Rattle.vmx_model.specs.Account.{Accounts, LeavesGuest};
ghost use Rattle.vmx_model.specs.Record.{HasLists};
ghost use Rattle.vmx_model.specs.Serial.{serial_run};
ghost use Rattle.vmx_model_examples.specs.RightRecord.{plain, sender, target, twelve, sender_view, target_view, right};

use vmx_model::{bags_tell, law_of_parts, links_tell, runs_in_order};

/// Twelve frames, of which eleven come up and the last finds no buffer: the record with these lists, over any image that holds the guests'
/// setup, has the lists of the plan's serial run, and accounts for the plan. Its ends, bags, facts and links say what devices and drivers leave.
pub fn the_right_record_accounts()
    ensures lists { (image : List ℕ) → HasLists (right image) (serial_run twelve) }
    ensures sender { (image : List ℕ) → Reads image (Ok plain) → LeavesGuest twelve (right image) 0 sender (sender_view image) }
    ensures target { (image : List ℕ) → Reads image (Ok plain) → LeavesGuest twelve (right image) 1 target (target_view image) }
    ensures accounts { (image : List ℕ) → Reads image (Ok plain) → Accounts twelve (right image) }
    ensures written { Accounts twelve (right (image_of plain)) }
{
    runs_in_order();
    bags_tell();
    links_tell();
    law_of_parts();
}
