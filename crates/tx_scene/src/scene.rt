//! The scene of a region.

ghost use Rattle.std.specs.List.{list_any};
ghost use Rattle.std.specs.Str.{bytes_eq};
ghost use Rattle.std.specs.Prelude.{◌≡◌, ◌+◌, ◌<◌, ◌≤◌, ℕ, Bool, true, ◌∷◌, [], Some, IsOk, OnOk, OnErr, IfOk, IfErr};
ghost use Rattle.std.specs.Option.{option_to_list};
ghost use Rattle.tx_node.specs.declared.BoxNode.{BoxNode};
ghost use Rattle.tx_eqtb.specs.Meanings.{Map, meanings};
ghost use Rattle.tx_eqtb.specs.Steps.{KeepsBefore};
ghost use Rattle.tx_private.specs.World.{World, logged, put_in_front, with_environment, is_overfull};
ghost use Rattle.tx_private.specs.Environment.{assigning, parameter_of, meaning_of, present};
ghost use Rattle.tx_private.specs.Assignments.{globally, release};
ghost use Rattle.tx_private.specs.Controls.{without_rest, keep_for_end};
ghost use Rattle.tx_private.specs.Quantities.{quantity_at};
ghost use Rattle.tx_private.specs.Expansions.{list_at};
ghost use Rattle.tx_prims.specs.declared.primitives.IntegerParameter.TheVariants.{GlobalDefs};
ghost use Rattle.tx_views.specs.Views.{IsView, viewed, all_viewed, list_in};
ghost use Rattle.tx_views.specs.Places.{address_in};
ghost use Rattle.tx_views.specs.Meanings.{meaning_in, map_in, sense_in};
ghost use Rattle.tx_save.specs.Saves.{Fits};
ghost use Rattle.tx_private.specs.Region.{started};
ghost use Rattle.tx_environment.specs.Soundness.{IsSound, IsPresent};
ghost use Rattle.tx_environment.specs.Steps.{held, IsOutermost};
ghost use Rattle.tx_environment.specs.Holding.{HasNoPooled, IsHeldIn, pooled_in, pooled_of_sense};
ghost use Rattle.tx_input.specs.Worlds.{IsOfFormat, IsKnown, AllKnown};
ghost use Rattle.tx_input.specs.Takings.{WantsAfter, KnowsTaken, steps_for};
ghost use Rattle.tx_scene.specs.Knowledge.{KnowsScene, references, falling, count_of};
ghost use Rattle.tx_scene.specs.Scenes.{Ground, IsGround, world, state_in};
ghost use Rattle.tx_scene.specs.Changes.{KeepsGround, Changes, Takes, Stores};

use std::alloc::{AllocError, Global};
use tx_assign::{Prefixes, is_global};
use tx_bytes::Bytes;
use tx_environment::Environment;
use tx_eqtb::{Frozen, Meaning};
use tx_input::{Input, Taken};
use tx_node::BoxNode;
use tx_num::Quant;
use tx_prims::primitives::IntegerParameter;
use tx_tok::{ListRef, Log, Tok, Toks};
use tx_views::{Place, Sense};

/// How many tokens the lists may have that a region stores.
const MOST_STORED: u64 = 1_048_576;

/// The same of a preamble.
const MOST_STORED_BY_PREAMBLE: u64 = 4_194_304;

/// All that a region works on.
#[derive(Drop)]
pub struct Scene {
    pub alloc: Global,
    /// What is pending, the steps and the session's own names.
    pub input: Input,
    /// What everything means, and the open groups.
    pub environment: Environment,
    /// The token that `\afterassignment` keeps.
    pub kept: Option<Tok>,
    /// How many tokens the lists have that the region has stored.
    pub stored: u64,
    /// Whether the region is a preamble.
    pub preamble: bool,
    pub log: Log,
}

impl Scene {
    /// A scene at the beginning of a session, whose format has so many names, or of a preamble.
    pub fn new(alloc: Global, frozen: &Frozen<BoxNode>, format_names: u64, preamble: bool) -> Self
        ensures state { (g : Ground) → IsView g.view → IsOfFormat g.formats g.view format_names → IsGround g result × (state_in g (meanings frozen.now) result ≡ record { map = map_in g.view (meanings frozen.now); frozen = λ text. list_any (bytes_eq text) g.formats; names = [] }) }
        ensures sound { IsSound (meanings frozen.now) result.environment }
        ensures outermost { IsOutermost result.environment }
        ensures journal { result.environment.table.journal ≡ [] }
        ensures knows { (known : ℕ → Bool) → KnowsScene known result }
        ensures references { (id : ℕ) → references id result ≡ 0 }
        ensures preamble { result.preamble ≡ preamble }
    {
        Scene {
            alloc,
            input: Input::new(alloc, format_names),
            environment: Environment::new(alloc, frozen),
            kept: None,
            stored: 0,
            preamble,
            log: Log::new(alloc),
        }
    }

    /// Begins a region of this text with this budget of steps, outside of all groups.
    pub fn begin(&mut self, text: Bytes, budget: u32)
        requires journal { self.old.environment.table.journal ≡ [] }
        requires outermost { IsOutermost self.old.environment }
        ensures begun { (g : Ground) (frozen : Map BoxNode) → world g frozen 0 self.new ≡ started (state_in g frozen self.old) self.old.preamble text budget }
        ensures ground { KeepsGround self.old self.new }
        ensures sound { (frozen : Map BoxNode) → IsPresent frozen self.old.environment → IsSound frozen self.new.environment }
        ensures environment { self.new.environment ≡ record self.old.environment { first = self.old.environment.cats } }
        ensures names { self.new.input.names ≡ self.old.input.names }
        ensures preamble { self.new.preamble ≡ self.old.preamble }
        ensures knows { (known : ℕ → Bool) → KnowsScene known self.old → KnowsScene known self.new }
    {
        self.input.begin(text, budget);
        self.environment.begin_region();
        self.kept = None;
        self.stored = 0;
        self.log = Log::new(self.alloc);
    }

    /// Takes the next token of what is pending. *TeX: The Program*, part 24.
    pub fn take(&mut self, frozen: &Frozen<BoxNode>) -> Taken
        requires sound { IsSound (meanings frozen.now) self.old.environment }
        ensures takes { Takes (meanings frozen.now) self.old result self.new }
        ensures becomes { self.new ≡ record self.old { input = self.new.input } }
        ensures wanted { WantsAfter result self.old.input.wanted self.new.input.wanted }
        ensures spent { self.new.input.steps.spent ≡ self.old.input.steps.spent + steps_for result }
        ensures within { 0 < steps_for result → self.new.input.steps.spent ≤ self.new.input.steps.budget }
        ensures budget { self.new.input.steps.budget ≡ self.old.input.steps.budget }
        ensures names { self.new.input.names ≡ self.old.input.names }
        ensures ground { KeepsGround self.old self.new }
        ensures known { (known : ℕ → Bool) → KnowsScene known self.old → KnowsTaken known result }
        ensures knows { (known : ℕ → Bool) → KnowsScene known self.old → KnowsScene known self.new }
    {
        let end = self
            .environment
            .integer(frozen, IntegerParameter::EndLineChar);
        self.input.take(self.environment.cats(), end)
    }

    /// What a token means now. A pooled list in it is one that the scene holds, where the frozen table has none. *TeX: The
    /// Program*, part 24.
    pub fn sense(&self, frozen: &Frozen<BoxNode>, token: Tok) -> Sense
        ensures means { (g : Ground) (depth : ℕ) → IsGround g self.now → sense_in g.view result ≡ meaning_of (world g (meanings frozen.now) depth self.now).environment (viewed g.view token) }
        ensures holds { HasNoPooled (meanings frozen.now) → IsHeldIn (held self.now.environment) (pooled_of_sense result) }
    {
        self.environment.sense(frozen, token)
    }

    /// The value of a parameter that is an integer. *TeX: The Program*, part 17.
    pub fn integer(&self, frozen: &Frozen<BoxNode>, parameter: IntegerParameter) -> i32
        ensures { (g : Ground) (depth : ℕ) → IsGround g self.now → result ≡ parameter_of (world g (meanings frozen.now) depth self.now).environment parameter }
    {
        self.environment.integer(frozen, parameter)
    }

    /// What a place means as a quantity. *TeX: The Program*, section 413.
    pub fn quantity(&self, frozen: &Frozen<BoxNode>, place: Place) -> Quant
        ensures { (g : Ground) (depth : ℕ) → IsGround g self.now → result ≡ quantity_at (address_in g.view place) (world g (meanings frozen.now) depth self.now) }
    {
        self.environment.quantity(frozen, place)
    }

    /// The list of tokens that a place means. A pooled one is one that the scene holds, where the frozen table has none.
    /// *TeX: The Program*, section 415.
    pub fn list(&self, frozen: &Frozen<BoxNode>, place: Place) -> ListRef
        ensures means { (g : Ground) (depth : ℕ) → IsGround g self.now → list_in g.view result ≡ list_at (address_in g.view place) (world g (meanings frozen.now) depth self.now) }
        ensures holds { HasNoPooled (meanings frozen.now) → IsHeldIn (held self.now.environment) (pooled_in result) }
    {
        self.environment.list(frozen, place)
    }

    /// Whether an assignment with these prefixes is global. *TeX: The Program*, section 1214.
    pub fn is_global(&self, frozen: &Frozen<BoxNode>, prefixes: Prefixes) -> bool
        ensures { (g : Ground) (depth : ℕ) → IsGround g self.now → result ≡ globally (parameter_of (world g (meanings frozen.now) depth self.now).environment GlobalDefs) prefixes.global }
    {
        is_global(
            self.environment
                .integer(frozen, IntegerParameter::GlobalDefs),
            prefixes.global,
        )
    }

    /// Puts tokens in front of what is pending. The only error is want of memory, which changes nothing. *TeX: The
    /// Program*, section 323.
    pub fn put(&mut self, tokens: Toks) -> Result<(), AllocError>
        ensures in_front { OnOk result (Changes (λ g w. put_in_front (all_viewed g.view tokens) w) self.old self.new) }
        ensures becomes { self.new ≡ record self.old { input = self.new.input } }
        ensures steps { self.new.input.steps ≡ self.old.input.steps }
        ensures names { self.new.input.names ≡ self.old.input.names }
        ensures ground { KeepsGround self.old self.new }
        ensures err { OnErr result (self.new ≡ self.old) }
        ensures knows { (known : ℕ → Bool) → AllKnown known tokens → KnowsScene known self.old → KnowsScene known self.new }
    {
        self.input.put(tokens)
    }

    /// Whether more single tokens are pending than may be.
    pub fn is_overfull(&self) -> bool
        ensures { (g : Ground) (frozen : Map BoxNode) (depth : ℕ) → result ≡ is_overfull (world g frozen depth self.now) }
    {
        self.input.is_overfull()
    }

    /// Drops all that is pending; the number of the line stays. *TeX: The Program*, part 46, `\end`.
    pub fn drop_rest(&mut self)
        ensures dropped { Changes (λ g w. without_rest w) self.old self.new }
        ensures becomes { self.new ≡ record self.old { input = self.new.input } }
        ensures steps { self.new.input.steps ≡ self.old.input.steps }
        ensures names { self.new.input.names ≡ self.old.input.names }
        ensures ground { KeepsGround self.old self.new }
        ensures knows { (known : ℕ → Bool) → KnowsScene known self.old → KnowsScene known self.new }
    {
        self.input.drop_rest();
    }

    /// Gives a place a meaning, in the innermost group alone or at all levels. A meaning that nothing brings back is
    /// handed out. The only error is want of memory, which hands the meaning back and changes nothing. *TeX: The
    /// Program*, sections 277 to 279.
    pub fn assign(
        &mut self,
        place: Place,
        meaning: Meaning<BoxNode>,
        global: bool,
    ) -> Result<Option<Meaning<BoxNode>>, Meaning<BoxNode>>
        requires { Fits self.old.environment.table self.old.environment.saves }
        ensures assigned { OnOk result (Changes (λ g w. with_environment (assigning global (address_in g.view place) (meaning_in g.view meaning) w.environment) w) self.old self.new) }
        ensures becomes { self.new ≡ record self.old { environment = self.new.environment } }
        ensures sound { OnOk result ((frozen : Map BoxNode) → IsSound frozen self.old.environment → IsSound frozen self.new.environment) }
        ensures before { KeepsBefore self.old.environment.table self.new.environment.table }
        ensures err { IfErr result (λ back. back ≡ meaning) }
        ensures unchanged { OnErr result (self.new ≡ self.old) }
        ensures knows { (known : ℕ → Bool) → KnowsScene known self.old → KnowsScene known self.new }
        ensures references { IfOk result (λ out. (id : ℕ) → references id self.new + falling id out ≡ references id self.old + count_of id meaning) }
    {
        self.environment.assign(place, meaning, global)
    }

    /// Puts the token that `\afterassignment` keeps in front, if it keeps one. The only error is want of memory, after
    /// which it keeps none. *TeX: The Program*, section 1269.
    pub fn release_kept(&mut self) -> Result<(), AllocError>
        ensures released { OnOk result (Changes (λ g w. release w.kept w) self.old self.new) }
        ensures becomes { self.new ≡ record self.old { input = self.new.input; kept = None } }
        ensures steps { self.new.input.steps ≡ self.old.input.steps }
        ensures names { self.new.input.names ≡ self.old.input.names }
        ensures ground { KeepsGround self.old self.new }
        ensures knows { (known : ℕ → Bool) → KnowsScene known self.old → KnowsScene known self.new }
    {
        match self.kept.take() {
            Some(token) => {
                let tokens = Toks(vec![in self.alloc; token; 1]?);
                self.input.put(tokens)
            }
            None => Ok(()),
        }
    }

    /// Keeps a token for the end of the next assignment. *TeX: The Program*, section 1268.
    pub fn keep(&mut self, token: Tok)
        ensures kept { Changes (λ g w. record w { kept = Some (viewed g.view token) }) self.old self.new }
        ensures becomes { self.new ≡ record self.old { kept = Some token } }
        ensures knows { (known : ℕ → Bool) → IsKnown known token → KnowsScene known self.old → KnowsScene known self.new }
    {
        self.kept = Some(token);
    }

    /// Counts a list as stored. False comes exactly where it is one too many, and changes nothing.
    pub fn store(&mut self, tokens: &Toks) -> bool
        ensures stores { Stores tokens.now result self.old self.new }
        ensures becomes { self.new ≡ record self.old { stored = self.new.stored } }
        ensures knows { (known : ℕ → Bool) → KnowsScene known self.old → KnowsScene known self.new }
    {
        let most = if self.preamble {
            MOST_STORED_BY_PREAMBLE
        } else {
            MOST_STORED
        };
        match self.stored.checked_add(tokens.len() as u64) {
            Some(stored) if stored <= most => {
                self.stored = stored;
                true
            }
            _ => false,
        }
    }

    /// Adds a line to the log. The only error is want of memory, which changes nothing.
    pub fn tell(&mut self, frozen: &Frozen<BoxNode>, text: &[u8]) -> Result<(), AllocError>
        ensures told { OnOk result ((g : Ground) (depth : ℕ) → IsGround g self.old → world g (meanings frozen.now) depth self.new ≡ logged text.now (world g (meanings frozen.now) depth self.old)) }
        ensures becomes { self.new ≡ record self.old { log = self.new.log } }
        ensures knows { (known : ℕ → Bool) → KnowsScene known self.old → KnowsScene known self.new }
        ensures err { OnErr result (self.new ≡ self.old) }
    {
        let newline = self
            .environment
            .integer(frozen, IntegerParameter::NewLineChar);
        self.log.line(text, newline)
    }

    /// A fact for callers; it does nothing. What a scene has stays known where more is.
    pub fn knows_more(&self)
        ensures { (known more : ℕ → Bool) → ((n : ℕ) → known n ≡ true → more n ≡ true) → KnowsScene known self.now → KnowsScene more self.now }
    {
        self.input.knows_more();
    }
}
