// Contexts as flat structs of numbers, for callers in other languages.
#![tactic(auto)]

ghost use Rattle.std.specs.Prelude.{◌≡◌};
ghost use Rattle.flat_contexts.specs.Contexts.{is_known, unflatten, flatten};

use model::{Context, Ept, GuestPlace, Place};

// A context as numbers. place: 0 outside, 1 root, 2 guest; vpid, ept and ep4ta are looked at in a guest
// only, and ep4ta with ept 1 only. ept: 0 off, 1 on.
// Kept: a struct of the C interface.
#[repr(C)]
#[derive(Clone, Copy)]
pub struct FlatContext {
    pub capability: u64,
    pub width: u64,
    pub linear_width: u64,
    pub pcid: u64,
    pub cpl: u64,
    pub place: u64,
    pub vpid: u64,
    pub ept: u64,
    pub ep4ta: u64,
}

#[tactic(auto, using(std::proofs::lemmas::Bool::Decides::nat_tests), unfolding(crate::specs::Contexts::is_known, crate::specs::Contexts::unflatten))]
impl FlatContext {
    // The place and EPT numbers stand for something.
    pub fn is_known(self) -> bool
        ensures { result ≡ is_known self }
    {
        self.place <= 1 || self.place == 2 && self.ept <= 1
    }

    // The place that the numbers stand for; those that stand for nothing are not asked.
    fn place(self) -> Place
        ensures { result ≡ (unflatten self).place }
    {
        match (self.place, self.ept) {
            (0, _) => Place::Outside,
            (1, _) => Place::Root,
            (_, 1) => Place::Guest(GuestPlace {
                vpid: self.vpid,
                ept: Ept::On(self.ep4ta),
            }),
            _ => Place::Guest(GuestPlace {
                vpid: self.vpid,
                ept: Ept::Off,
            }),
        }
    }
}

// The context that the numbers stand for. A place above 1 is read as a guest, an EPT number other than 1 as
// off.
impl From<FlatContext> for Context {
    ghost from_gives = { λ c r. r ≡ unflatten c };

    #[tactic(auto, unfolding(crate::specs::Contexts::unflatten))]
    fn from(c: FlatContext) -> Context {
        Context {
            capability: c.capability,
            width: c.width,
            linear_width: c.linear_width,
            pcid: c.pcid,
            cpl: c.cpl,
            place: c.place(),
        }
    }
}

// A context as numbers; a field that the place lacks is 0.
impl From<Context> for FlatContext {
    ghost from_gives = { λ c r. r ≡ flatten c };

    #[tactic(auto, unfolding(crate::specs::Contexts::flatten))]
    fn from(c: Context) -> FlatContext {
        let outside = FlatContext {
            capability: c.capability,
            width: c.width,
            linear_width: c.linear_width,
            pcid: c.pcid,
            cpl: c.cpl,
            place: 0,
            vpid: 0,
            ept: 0,
            ep4ta: 0,
        };
        match c.place {
            Place::Outside => outside,
            Place::Root => FlatContext {
                place: 1,
                ..outside
            },
            Place::Guest(guest) => match guest.ept {
                Ept::Off => FlatContext {
                    place: 2,
                    vpid: guest.vpid,
                    ..outside
                },
                Ept::On(ep4ta) => FlatContext {
                    place: 2,
                    vpid: guest.vpid,
                    ept: 1,
                    ep4ta,
                    ..outside
                },
            },
        }
    }
}
