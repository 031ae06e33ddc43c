//! The form of names in a project.
ghost use Rattle.std.specs.Prelude.{◌≡◌, ◌↔◌, All, IsTrue};
ghost use Rattle.std.specs.List.{list_all};
ghost use Rattle.mars_base.specs.Name.{is_name_start, is_name_byte, begins_name, is_name, IsNameStart, IsNameByte, BeginsName, IsName};

/// Whether the bytes have the form of a name: 1 to 31 ASCII letters, digits and underscores, the first
/// of them no digit.
#[tactic(auto, unfolding(crate::specs::Name::is_name))]
pub fn is_name(name: &[u8]) -> bool
    ensures form { IsTrue result ↔ IsName name.now }
    ensures same { result ≡ is_name name.now }
{
    begins_name(name) && has_name_bytes(name) && name.len() <= 31
}

fn begins_name(name: &[u8]) -> bool
    ensures form { IsTrue result ↔ BeginsName name.now }
    ensures same { result ≡ begins_name name.now }
{
    match name {
        [] => false,
        [first, ..] => is_start(*first),
    }
}

fn has_name_bytes(name: &[u8]) -> bool
    ensures form { IsTrue result ↔ All IsNameByte name.now }
    ensures same { result ≡ list_all is_name_byte name.now }
{
    name.iter().all(|byte| is_name_byte(*byte))
}

fn is_start(byte: u8) -> bool
    ensures form { IsTrue result ↔ IsNameStart byte }
    ensures same { result ≡ is_name_start byte }
{
    byte.is_ascii_uppercase() || byte.is_ascii_lowercase() || byte == b'_'
}

fn is_name_byte(byte: u8) -> bool
    ensures form { IsTrue result ↔ IsNameByte byte }
    ensures same { result ≡ is_name_byte byte }
{
    is_start(byte) || byte.is_ascii_digit()
}
