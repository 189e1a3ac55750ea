// An identifier compared by its read letters.
ghost use Rattle.std.specs.Prelude.{◌≡◌};
ghost use Rattle.lists.specs.Same.{same};
ghost use Rattle.values.specs.Read.{read_identifier};
ghost use Rattle.sgf.specs.NamedInC.{named_in_c};

// 1 where a raw identifier reads as a name, else 0.
#[unsafe(no_mangle)]
pub extern "C" fn sgf_is_named(identifier: &[u8], name: &[u8]) -> u32
    ensures { result ≡ named_in_c (same (read_identifier identifier.now) name.now) }
{
    sgf::names::sgf_is_named(identifier, name)
}
