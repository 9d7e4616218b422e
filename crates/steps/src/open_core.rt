use crate::core_lines;
use crate::line::{Line, Method};
use capture_core::PlainCopy;
use ping_pong::PingPong;
use shared_capture::{Joined, Pong, Zig};
use std::alloc::Global;
use world_actions::Refusal;
use world_core::Core;
use zigzag::Zigzag;

/// A core over one of the stores.
pub enum OpenCore {
    /// Over a plain copy.
    Plain(Core<PlainCopy>),
    /// Over Zigzag's two arrays.
    Zigzag(Core<Zigzag>),
    /// Over Ping-Pong's arrays.
    PingPong(Core<PingPong>),
    /// Over both seats at a table of Zigzag.
    ZigzagShared(Core<Joined<Zig>>),
    /// Over both seats at a table of Ping-Pong.
    PingPongShared(Core<Joined<Pong>>),
}

// One call drops a core, whatever its store is.
impl Drop for OpenCore {
    fn drop(self) {
        match self {
            OpenCore::Plain(core) => core_lines::let_go(core),
            OpenCore::Zigzag(core) => core_lines::let_go(core),
            OpenCore::PingPong(core) => core_lines::let_go(core),
            OpenCore::ZigzagShared(core) => core_lines::let_go(core),
            OpenCore::PingPongShared(core) => core_lines::let_go(core),
        }
    }
}

impl OpenCore {
    ghost use Rattle.std.specs.Prelude.{◌≡◌, ◌≤◌, ℕ, List, ◌++◌, OnOk, IfOk, IfErr};
    ghost use Rattle.world_actions.specs.declared.world.TheConstants.{CELLS};
    ghost use Rattle.world_core.specs.Past.{Past};
    ghost use Rattle.world_core.specs.Facts.{IsCoreAt};
    ghost use Rattle.steps.specs.Played.{Opens};
    ghost use Rattle.steps.specs.OpenCore.{state_of, method_of, Leads, IsNoOpening};

    /// Makes a fresh core that captures by this method, and runs its start. Its only
    /// refusal is `NoMemory`.
    pub fn fresh(alloc: Global, method: Method, cells: u32) -> Result<Self, Refusal>
        requires { (1 ≤ cells) × (cells ≤ CELLS) }
        ensures opens { IfOk result (λ core. (past : Past) × IsCoreAt past (state_of core)
            × Opens cells (record { past = past; state = state_of core })) }
        ensures method { IfOk result (λ core. method_of core ≡ method) }
        ensures memory { IfErr result (λ refusal. refusal ≡ Refusal.NoMemory) }
    {
        match method {
            Method::Plain => Ok(OpenCore::Plain(core_lines::open_core(alloc, cells)?)),
            Method::Zigzag => Ok(OpenCore::Zigzag(core_lines::open_core(alloc, cells)?)),
            Method::PingPong => Ok(OpenCore::PingPong(core_lines::open_core(alloc, cells)?)),
            Method::ZigzagShared => {
                Ok(OpenCore::ZigzagShared(core_lines::open_core(alloc, cells)?))
            }
            Method::PingPongShared => {
                Ok(OpenCore::PingPongShared(core_lines::open_core(alloc, cells)?))
            }
        }
    }

    /// Runs a line that opens no core, and adds its text. Its only refusal is `NoMemory`.
    pub fn say(&mut self, line: Line, text: &mut Vec<u8>) -> Result<(), Refusal>
        requires { IsNoOpening line }
        ensures says { OnOk result ((said : List ℕ) × (text.new.items ≡ text.old.items ++ said)
            × Leads line (state_of self.old) said (state_of self.new)) }
        ensures method { OnOk result (method_of self.new ≡ method_of self.old) }
        ensures memory { IfErr result (λ refusal. refusal ≡ Refusal.NoMemory) }
    {
        match self {
            OpenCore::Plain(core) => core_lines::say_line(core, line, text),
            OpenCore::Zigzag(core) => core_lines::say_line(core, line, text),
            OpenCore::PingPong(core) => core_lines::say_line(core, line, text),
            OpenCore::ZigzagShared(core) => core_lines::say_line(core, line, text),
            OpenCore::PingPongShared(core) => core_lines::say_line(core, line, text),
        }
    }
}
