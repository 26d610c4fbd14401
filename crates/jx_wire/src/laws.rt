ghost use Rattle.std.specs.Prelude.{◌≡◌, ◌≤◌, ◌++◌, ℕ, List, length};
ghost use Rattle.std.specs.List.{All};
ghost use Rattle.jx_wire.specs.Frames.{Reading, bodies as bodies_in, frames, read_on, start};

/// Bytes that are cut in two lead where they lead as a whole, and the same bodies end in them.
pub fn frames_of_two_parts()
    ensures read { (r : Reading) (xs ys : List ℕ) → read_on r (xs ++ ys) ≡ read_on (read_on r xs) ys }
    ensures ended { (r : Reading) (xs ys : List ℕ) → bodies_in r (xs ++ ys) ≡ bodies_in r xs ++ bodies_in (read_on r xs) ys }
{}

/// The frames of bodies of at most 1 GiB are read as these bodies, and leave the reader in front of the next frame.
pub fn frame_round_trip()
    ensures read { (bs : List (List ℕ)) → All (λ b. length b ≤ 1073741824) bs → read_on start (frames bs) ≡ start }
    ensures ended { (bs : List (List ℕ)) → All (λ b. length b ≤ 1073741824) bs → bodies_in start (frames bs) ≡ bs }
{}
