ghost use Rattle.std.specs.Prelude.{◌≤◌, ◌≡◌, ◌+◌, ◌-◌, ◌*◌, ◌/◌, length, slice_index};

/// The time that so many thousandths of all don't exceed, and 0 if there is none. The list begins
/// with the shortest time.
pub fn of_thousandths(sorted: &[u64], thousandths: u32) -> u64
    requires { (1 ≤ thousandths) × (thousandths ≤ 1000) }
    ensures { result ≡ slice_index sorted.now ((length sorted.now * thousandths + 999) / 1000 - 1) }
{
    let all = sorted.len() as u128;
    let rank = (all * u128::from(thousandths)).div_ceil(1000);
    let place = rank.saturating_sub(1) as usize;
    sorted.get(place).copied().unwrap_or(0)
}
