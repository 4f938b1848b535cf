//! Secrets, entries, halves and members.
use crate::{Action, Bundle, Half, Halves, KeyFault, KeyRing, Policy, Role, RotateFault, Secrets};
use kb_edge::Memory;
use kb_seal::{HmacSealer, Key};
use std::alloc::Global;

// The seed of the bytes from 0 to 31.
fn counting() -> Secrets {
    let mut seed = [0u8; 32];
    for i in 0..32u8 {
        seed[usize::from(i)] = i;
    }
    Secrets::new(seed)
}

#[test]
fn a_seed_gives_secrets(rt: HostRuntime) {
    let secrets = counting();
    assert!(&rt;
        secrets.device(258)
            == [
                0xa4, 0xb4, 0xd9, 0x59, 0x0a, 0xb0, 0x87, 0xc1, 0x90, 0x80, 0x82, 0x62, 0xc8, 0x22,
                0x49, 0xca, 0x42, 0x43, 0xea, 0x9a, 0x4e, 0xf5, 0x63, 0xbc, 0xe6, 0xa3, 0x1f, 0x5c,
                0x0d, 0x8f, 0xb6, 0xa1
            ]
    );
    assert!(&rt;
        secrets.folder(0x0102_0304)
            == [
                0xe3, 0x2d, 0x3e, 0x36, 0xde, 0x0a, 0xf6, 0xa5, 0xf7, 0x04, 0x2a, 0xb8, 0x1c, 0x71,
                0xae, 0x1c, 0xe6, 0x5a, 0xe4, 0x14, 0x9a, 0xce, 0x3e, 0x88, 0xea, 0x87, 0x36, 0x52,
                0x00, 0x7d, 0x57, 0x42
            ]
    );
    assert!(&rt;
        secrets.half(0x0102, 0x0304_0506)
            == [
                0x19, 0x98, 0x61, 0xfd, 0xe3, 0x55, 0x22, 0x77, 0xd4, 0x7e, 0x1d, 0xf5, 0x4e, 0x29,
                0xa4, 0xeb, 0x70, 0x3c, 0x13, 0xc5, 0x9f, 0x91, 0x59, 0xe7, 0x66, 0xfe, 0x10, 0xa7,
                0x2d, 0xdf, 0x37, 0x73
            ]
    );
}

fn rotated(alloc: Global, bundle: &mut Bundle, secrets: &Secrets) -> bool {
    bundle.rotate::<HmacSealer>(alloc, &[1, 2], secrets) == Ok(1)
}

fn key_of(alloc: Global, bundle: &Bundle, d: u16, g: u32, secret: &Key) -> Result<Key, KeyFault> {
    bundle.key_of::<HmacSealer>(alloc, d, g, secret, &counting().half(d, g))
}

#[test]
fn an_entry_gives_its_key(rt: HostRuntime) {
    let secrets = counting();
    let mut bundle = Bundle::new(rt.alloc());
    assert!(&rt; rotated(rt.alloc(), &mut bundle, &secrets));
    let key = secrets.folder(1);
    assert!(&rt; key_of(rt.alloc(), &bundle, 2, 1, &secrets.device(2)) == Ok(key));
    assert!(&rt; key_of(rt.alloc(), &bundle, 2, 1, &secrets.device(1)) == Err(KeyFault::NotSealed));
    assert!(&rt; key_of(rt.alloc(), &bundle, 2, 2, &secrets.device(2)) == Err(KeyFault::NoEntry));
    assert!(&rt; key_of(rt.alloc(), &bundle, 3, 1, &secrets.device(3)) == Err(KeyFault::NoEntry));
}

#[test]
fn an_added_entry_is_the_known_one(rt: HostRuntime) -> Result<(), Memory> {
    let secrets = counting();
    let mut ring = KeyRing::new(rt.alloc());
    ring.add(1, secrets.folder(1))?;
    ring.add(64, secrets.folder(64))?;
    assert!(&rt; ring.key(1) == Some(&secrets.folder(1)));
    assert!(&rt; ring.key(2) == None);
    let mut bundle = Bundle::new(rt.alloc());
    bundle.add::<HmacSealer>(rt.alloc(), 1, &ring, &secrets)?;
    match bundle.entries() {
        [first, second] => {
            assert!(&rt; first.device == 1 && first.generation == 1);
            assert!(&rt; second.device == 1 && second.generation == 64);
            assert!(&rt;
                first.sealed
                    == [
                        0xb3, 0x97, 0x68, 0x01, 0x33, 0x23, 0x07, 0xc4, 0x7f, 0x66, 0x79, 0x8d,
                        0xf3, 0x90, 0x1c, 0x61, 0x3f, 0x8e, 0x9e, 0x5a, 0x1a, 0x20, 0xb8, 0x6b,
                        0x0d, 0x00, 0x3a, 0x34, 0xcb, 0xd8, 0x46, 0x18, 0x35, 0x36, 0x5d, 0xd4,
                        0xe4, 0xcd, 0x12, 0xcc, 0x49, 0x10, 0x24, 0xbe, 0x30, 0xbe, 0x30, 0xa0,
                        0x3a, 0x2b, 0x8c, 0x4e, 0x73, 0x4c, 0x9f, 0x49, 0x54, 0xf3, 0x69, 0xb8,
                        0xfd, 0x3e, 0xbe, 0x13
                    ]
            );
        }
        _ => assert!(&rt; false),
    }
    assert!(&rt;
        bundle.rotate::<HmacSealer>(rt.alloc(), &[1], &secrets) == Err(RotateFault::GenEnd)
    );
    Ok(())
}

#[test]
fn a_half_is_kept_until_its_device_goes(rt: HostRuntime) -> Result<(), Memory> {
    let mut halves = Halves::new(rt.alloc());
    halves.reserve(2)?;
    halves.add(&Half {
        device: 1,
        generation: 2,
        half: [3; 32],
    });
    halves.add(&Half {
        device: 1,
        generation: 2,
        half: [4; 32],
    });
    assert!(&rt; halves.get(1, 2) == Some([4; 32]));
    assert!(&rt; halves.get(1, 1) == None);
    halves.drop_device(2);
    assert!(&rt; halves.get(1, 2) == Some([4; 32]));
    halves.drop_device(1);
    assert!(&rt; halves.get(1, 2) == None);
    Ok(())
}

#[test]
fn members_come_and_go(rt: HostRuntime) {
    let mut policy = Policy::new();
    policy.apply(Action::Found, 1);
    policy.apply(Action::GrantReader, 32);
    assert!(&rt; policy.role(1) == Some(Role::Writer));
    assert!(&rt; policy.role(32) == Some(Role::Reader));
    assert!(&rt; policy.generation() == 1);
    policy.apply(Action::Revoke, 1);
    assert!(&rt; policy.role(1) == None);
    assert!(&rt; policy.role(33) == None);
    assert!(&rt; policy.generation() == 2);
}
