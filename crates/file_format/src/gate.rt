ghost use Rattle.std.specs.Prelude.{◌≡◌, true, false};
ghost use Rattle.file_format.specs.Gate.{HasShutGate, HasNoShutGate};

/// The gate of a file whose rest counts.
pub const OPEN_GATE: u8 = 1;

/// The gate that is written to close a file.
pub const CLOSED_GATE: u8 = 0;

/// True if the gate is there and isn't open. Such a file isn't closed again, since a second closing
/// write could be torn and leave an open gate.
pub fn is_shut(file: &[u8]) -> bool
    ensures shut { result ≡ true → HasShutGate file.now }
    ensures not_shut { result ≡ false → HasNoShutGate file.now }
{
    !file.is_empty() && file[0] != OPEN_GATE
}
