// The origins of a path, from its edges written out in order.
ghost use Rattle.std.specs.Prelude.{◌≡◌, map, ℕ, ◌+◌, ◌*◌, ◌<◌, ◌≤◌, length, get_or};
ghost use Rattle.std.proofs.lemmas.List.Edits.{sets};
ghost use Rattle.laws.specs.Records.{field};

// A field of each edge of a walk, in a table of records of `width` numbers, from the place `from` on: the sequences or the places of the origins.
pub fn write_field(
    walk: &[u32],
    table: &[u32],
    width: usize,
    j: usize,
    out: &mut [u32],
    from: usize,
)
    requires { ((i : ℕ) → i < length walk.now → get_or walk.now i 0 * width + j < length table.now) × (from + length walk.now ≤ length out.old) }
    ensures { out.new ≡ sets out.old from (map (λ e. field table.now width e j) walk.now) }
{
    for (i, e) in walk.iter().enumerate() {
        out[from + i] = table[*e as usize * width + j];
    }
}
