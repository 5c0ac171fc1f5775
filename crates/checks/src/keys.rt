// The keys of streams, reservations and publishers.
ghost use Rattle.std.specs.Prelude.{◌≡◌, ◌≤◌, length};
ghost use Rattle.records.specs.Name.{stated_name};
ghost use Rattle.checks.specs.Keys.{plain_key, goose_key, reservation_key};

use records::name::{Name, padded_octets};
use tables::key::name_key;

// The key of a name that a frame states.
pub fn plain_key<'a>(name: Name<'a>) -> [u64; 10]
    ensures { result ≡ plain_key (stated_name name.entry) }
{
    name_key(0, name.octets, name.len)
}

// The key of a publisher's name, of at most 64 octets.
pub fn publisher_key(name: &[u8]) -> [u64; 10]
    requires { length name.now ≤ 64 }
    ensures { result ≡ plain_key name.now }
{
    let octets = padded_octets(name);
    plain_key(Name {
        octets: &octets,
        len: name.len() as u8,
    })
}

// The key of a GOOSE stream.
pub fn goose_key(address: u64, hash: u32) -> [u64; 10]
    ensures { result ≡ goose_key address hash }
{
    [address, hash as u64, 0, 0, 0, 0, 0, 0, 0, 0]
}

// The key of a reservation.
pub fn reservation_key<'a>(is_goose: bool, name: Name<'a>) -> [u64; 10]
    ensures { result ≡ reservation_key is_goose (stated_name name.entry) }
{
    name_key(u64::from(is_goose), name.octets, name.len)
}
