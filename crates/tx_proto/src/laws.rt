//! What holds of frames and of the places at which an input breaks.

ghost use Rattle.std.specs.Prelude.{◌≡◌, ℕ, ◌+◌, ◌<◌, List, ◌++◌, length, IfSome};
ghost use Rattle.std.specs.List.{flat_map, AllByRecursion};
ghost use Rattle.tx_model.specs.Frames.{Request, IsLawful, frame, InputEnd, IsInput, IsLawfulInput, BreaksAt};
ghost use Rattle.tx_bytes.specs.Tells.{Tells, ReadsNext};
ghost use Rattle.tx_proto.specs.declared.requests.Got.{Got};
ghost use Rattle.tx_proto.specs.Requests.{AfterRequest, ReadsAs, ReadsToBreak};

/// An input breaks at one place at the most.
pub fn one_place()
    ensures { (input : List ℕ) (p q : ℕ) → BreaksAt input p → BreaksAt input q → p ≡ q }
{}

/// No lawful input breaks anywhere.
pub fn lawful_never_breaks()
    ensures { (input : List ℕ) (place : ℕ) → IsLawfulInput input → BreaksAt input place → ⊥ }
{}

/// An input is the frames of one list of requests at the most, with one ending.
pub fn one_reading()
    ensures { (input : List ℕ) (rs ss : List Request) (a b : InputEnd) → IsInput input rs a → IsInput input ss b → (rs ≡ ss) × (a ≡ b) }
{}

/// What breaks at a place breaks behind lawful frames at that place after them.
pub fn breaks_behind()
    ensures { (requests : List Request) (rest : List ℕ) (place : ℕ) → AllByRecursion IsLawful requests → BreaksAt rest place → BreaksAt (flat_map frame requests ++ rest) (length (flat_map frame requests) + place) }
{}

/// What breaks at one of its bytes breaks there whatever follows.
pub fn breaks_in_what_is_read()
    ensures { (bytes more : List ℕ) (place : ℕ) → place < length bytes → BreaksAt bytes place → BreaksAt (bytes ++ more) place }
{}

/// Where an input tells the bytes that are left, these are what breaks at the place to which it is read.
pub fn breaks_in_what_is_left()
    ensures { (old new : Tells) (place : ℕ) → ReadsToBreak old place new → IfSome old.left (λ left. BreaksAt left place) }
{}

/// Requests read one after another are the input's, and then its end or the place at which it breaks is
/// what is got, where the input tells the bytes that were left at first.
pub fn input_is_read_as()
    ensures { (old mid new : Tells) (requests : List Request) (got : Got) → AllByRecursion IsLawful requests → ReadsNext old (flat_map frame requests) mid → AfterRequest mid (length (flat_map frame requests)) got new → IfSome old.left (λ input. ReadsAs input requests got) }
{}
