//! Laws of the network over a whole run.

ghost use Rattle.std.specs.Prelude.{◌≡◌, ℕ, List, Option, Some};
ghost use Rattle.aoe_net.specs.Wire.{FitsRings, Wire};
ghost use Rattle.plain_run.specs.Entry.{Entry};
ghost use Rattle.streaming.specs.Network.{IsCourse, NetworkEvent};
ghost use Rattle.streaming.specs.Lists.{HoldsReplies, HoldsRequests};

/// Schedule, report and a told image have one course of the network at most: where it ends, and how many sectors of the
/// image went into replies.
pub fn a_report_has_one_course()
    ensures network { (sectors : ℕ) (image : List ℕ) (entries : List Entry) (one other : Wire)
        (m n : ℕ) → IsCourse sectors (Some image) entries one m
        → IsCourse sectors (Some image) entries other n → one ≡ other }
    ensures count { (sectors : ℕ) (image : List ℕ) (entries : List Entry) (one other : Wire)
        (m n : ℕ) → IsCourse sectors (Some image) entries one m
        → IsCourse sectors (Some image) entries other n → m ≡ n }
{}

/// No list ever has more frames than it has room for.
pub fn no_list_outgrows_its_room()
    ensures event { (sectors : ℕ) (told : Option (List ℕ)) (old new : Wire) (entry : Entry)
        (count : ℕ) → NetworkEvent sectors told old entry new count
        → FitsRings old → FitsRings new }
    ensures course { (sectors : ℕ) (told : Option (List ℕ)) (entries : List Entry) (wire : Wire)
        (count : ℕ) → IsCourse sectors told entries wire count → FitsRings wire }
{}

/// One list has requests alone, and the other, over a told image, replies of the server alone: no stray frame joins
/// either.
pub fn each_list_holds_its_own()
    ensures requests_kept { (sectors : ℕ) (told : Option (List ℕ)) (old new : Wire)
        (entry : Entry) (count : ℕ) → NetworkEvent sectors told old entry new count
        → HoldsRequests old → HoldsRequests new }
    ensures replies_kept { (sectors : ℕ) (image : List ℕ) (old new : Wire) (entry : Entry)
        (count : ℕ) → NetworkEvent sectors (Some image) old entry new count
        → HoldsReplies sectors image old → HoldsReplies sectors image new }
    ensures requests { (sectors : ℕ) (told : Option (List ℕ)) (entries : List Entry) (wire : Wire)
        (count : ℕ) → IsCourse sectors told entries wire count → HoldsRequests wire }
    ensures replies { (sectors : ℕ) (image : List ℕ) (entries : List Entry) (wire : Wire)
        (count : ℕ) → IsCourse sectors (Some image) entries wire count
        → HoldsReplies sectors image wire }
{}
