//! What the system is asked for a host, what a hosts file has for a name, and in which order addresses are tried.
use sq_base::Addr;
use sq_system::{Goal, asked, hosts_addresses, tried_so};

/// Hosts, and what the system is asked for them: a name with a dot at its end, anything else as it stands.
static ASKED: [(&str, &str); 12] = [
    ("secret", "secret."),
    ("secret.x", "secret.x."),
    ("localhost", "localhost."),
    ("a-b_c.example", "a-b_c.example."),
    ("secret.", "secret."),
    ("10.0.0.1", "10.0.0.1"),
    ("::1", "::1"),
    ("127.1", "127.1"),
    ("0x7f000001", "0x7f000001"),
    ("2130706433", "2130706433"),
    ("Secret", "Secret"),
    ("", ""),
];

#[test]
fn a_name_is_asked_for_with_a_dot_at_its_end(rt: HostRuntime) {
    for &(host, wanted) in &ASKED {
        let text = asked(rt.alloc(), host).expect(&rt, "a text");
        assert!(rt; text.as_bytes() == wanted.as_bytes(), "at {host:?}: {text}");
    }
}

/// Texts of a hosts file, and the last byte of each address that it has for `secret`.
static HOSTS: [(&str, &[u8]); 14] = [
    ("", &[]),
    ("10.0.0.1 secret", &[1]),
    ("10.0.0.1 secret\n", &[1]),
    ("10.0.0.1\tother  Secret\t\r\n", &[1]),
    (
        "10.0.0.1 secret\n::2 SECRET other\n10.0.0.3 others",
        &[1, 2],
    ),
    ("10.0.0.1 secret.corp.test secrets ecret", &[]),
    ("# 10.0.0.1 secret\n", &[]),
    ("10.0.0.1 other # secret\n10.0.0.2 secret#other\n", &[2]),
    ("10.0.0.1 #\nsecret\n", &[]),
    ("secret 10.0.0.1\n", &[]),
    ("secret secret\nx secret\n10.0.0 secret\n", &[]),
    ("  10.0.0.1   secret", &[1]),
    ("10.0.0.1\nsecret", &[]),
    ("10.0.0.1 secret secret", &[1, 1]),
];

#[test]
fn a_hosts_file_has_addresses_for_a_name(rt: HostRuntime) {
    for &(text, wanted) in &HOSTS {
        let found = hosts_addresses(rt.alloc(), b"secret", text.as_bytes()).expect(&rt, "a list");
        let addrs = found.as_slice();
        assert!(rt; addrs.len() == wanted.len(), "at {text:?}");
        for (addr, last) in addrs.iter().zip(wanted) {
            assert!(rt; number_of(*addr) == *last as u128, "at {text:?}");
        }
    }
}

fn number_of(addr: Addr) -> u128 {
    addr.number & 0xff
}

/// Addresses, each by its kind and whether it failed of late, and the places in the order in which they are tried.
static ORDERS: [(&[(bool, bool)], &[usize]); 7] = [
    (&[], &[]),
    (&[(false, false)], &[0]),
    (&[(false, false), (true, false)], &[1, 0]),
    (
        &[(false, false), (false, false), (true, false), (true, false)],
        &[2, 0, 3, 1],
    ),
    (
        &[(true, false), (true, false), (true, false), (false, false)],
        &[0, 3, 1, 2],
    ),
    (&[(true, true), (false, false)], &[1, 0]),
    (
        &[(false, true), (true, true), (false, false), (false, false)],
        &[2, 3, 1, 0],
    ),
];

#[test]
fn addresses_are_tried_in_turns(rt: HostRuntime) {
    for &(kinds, wanted) in &ORDERS {
        let mut goals = Vec::new(rt.alloc());
        for (place, &(v6, late)) in kinds.iter().enumerate() {
            goals.push(Goal { place, v6, late }).expect(&rt, "a place");
        }
        let order = tried_so(rt.alloc(), goals.as_slice()).expect(&rt, "an order");
        assert!(rt; order.len() == wanted.len(), "at {wanted:?}");
        for (goal, place) in order.as_slice().iter().zip(wanted) {
            assert!(rt; goal.place == *place, "at {wanted:?}");
        }
    }
}
