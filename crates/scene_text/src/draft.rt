//! The lines of a scene that were read so far.

ghost use Rattle.std.specs.Prelude.{◌≡◌, ◌++◌, ◌∷◌, List, [], true, false, OnOk, IfOk};
ghost use Rattle.scene_text.specs.declared.line.Line.TheVariants as line;
ghost use Rattle.scene_text.specs.Scenes.{scene_lines};
ghost use Rattle.scene_text.specs.Drafts.{draft_lines, IsWhole};

use crate::head::{Head, Heads};
use crate::scripts::{Calls, Scripts};
use crate::whole::Scene;
use cs_policy::Call;
use std::alloc::{AllocError, Global};
use std::mem;

/// Header lines, scripts that are whole, and the calls of the script that was begun last.
#[derive(Drop)]
pub struct Draft {
    pub head: Vec<Head>,
    pub done: Vec<Calls>,
    pub open: Vec<Call>,
    pub begun: bool,
}

impl Draft {
    /// No lines.
    pub fn new(alloc: Global) -> Draft
        ensures lines { draft_lines result ≡ [] }
        ensures whole { IsWhole result }
        ensures begun { result.begun ≡ false }
    {
        Draft {
            head: Vec::new(alloc),
            done: Vec::new(alloc),
            open: Vec::new(alloc),
            begun: false,
        }
    }

    /// One more header line. After an error the lines are some or other.
    #[tactic(auto, using(crate::proofs::DraftFacts::head_added))]
    pub fn add_head(&mut self, head: Head) -> Result<(), AllocError>
        requires placed { self.old.begun ≡ false }
        requires whole { IsWhole self.old }
        ensures lines { OnOk result (draft_lines self.new ≡ draft_lines self.old ++ line.Head head ∷ []) }
        ensures whole { OnOk result (IsWhole self.new) }
        ensures begun { OnOk result (self.new.begun ≡ false) }
    {
        self.head.push(head)?;
        Ok(())
    }

    /// One more script begins.
    #[tactic(auto, using(crate::proofs::DraftFacts::script_begun, crate::proofs::DraftFacts::script_added))]
    pub fn begin(&mut self, alloc: Global) -> Result<(), AllocError>
        requires { IsWhole self.old }
        ensures lines { OnOk result (draft_lines self.new ≡ draft_lines self.old ++ line.Script ∷ []) }
        ensures whole { OnOk result (IsWhole self.new) }
        ensures begun { OnOk result (self.new.begun ≡ true) }
    {
        if self.begun {
            let calls = mem::replace(&mut self.open, Vec::new(alloc));
            self.done.push(Calls::new(calls))?;
        }
        self.begun = true;
        Ok(())
    }

    /// One more call of the script that was begun last.
    #[tactic(auto, using(crate::proofs::DraftFacts::call_added))]
    pub fn add_call(&mut self, call: Call) -> Result<(), AllocError>
        requires placed { self.old.begun ≡ true }
        ensures lines { OnOk result (draft_lines self.new ≡ draft_lines self.old ++ line.Call call ∷ []) }
        ensures whole { OnOk result (IsWhole self.new) }
        ensures begun { OnOk result (self.new.begun ≡ true) }
    {
        self.open.push(call)?;
        Ok(())
    }

    /// The scene of these lines.
    #[tactic(auto, using(crate::proofs::DraftFacts::no_more))]
    pub fn finish(self) -> Result<Scene, AllocError>
        ensures { IfOk result (λ scene. scene_lines scene ≡ draft_lines self) }
    {
        let Draft {
            head,
            mut done,
            open,
            begun,
        } = self;
        if begun {
            done.push(Calls::new(open))?;
        }
        Ok(Scene {
            head: Heads::new(head),
            scripts: Scripts::new(done),
        })
    }
}
