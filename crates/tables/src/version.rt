// The versions that a closed load leaves, ten bytes for each of the networks 00 to 99 (scope paper, section Commands, TLE).
ghost use Rattle.std.specs.Prelude.{◌≡◌, length, replicate};
ghost use mathlib.Core.List.{flatten};
ghost use Rattle.tables.specs.Closing.{new_versions};

// Puts the version in each of the hundred places, by its number as `versions_after` puts one: chunks of ten would say it in two ways.
#[tactic(auto, using(crate::proofs::Versions::none_yet, crate::proofs::Versions::version_more))]
fn put_everywhere(versions: &mut [u8], version: &[u8])
    requires { (length versions.old ≡ 1000) × (length version.now ≡ 10) }
    ensures { versions.new ≡ flatten (replicate 100 version.now) }
{
    for n in 0..100usize {
        answer::put(versions, n * 10, version);
    }
}

// The versions after a load of `network` closed with `version`.
#[tactic(auto, using(crate::proofs::Versions::versions_all, crate::proofs::Versions::versions_same, crate::proofs::Versions::versions_one))]
pub fn versions_after(versions: [u8; 1000], network: u8, version: [u8; 10]) -> [u8; 1000]
    ensures { result ≡ new_versions network version versions }
{
    let mut next = versions;
    if network == 0 {
        put_everywhere(&mut next, &version);
        return next;
    }
    if 99 < network {
        return next;
    }
    answer::put(&mut next, (network as usize) * 10, &version);
    answer::put(&mut next, 0, &[0x30; 10]);
    next
}
