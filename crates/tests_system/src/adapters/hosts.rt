//! The spellings in which a host is reached, and those in which it is not: what a rule over addresses or names does not see is
//! dialled by none. Which spellings the system takes for an address is from inet_aton(3).
use sq_system::has_one_spelling;

const REACHED: &str =
    "127.0.0.1 0.0.0.0 10.1.2.3 192.0.2.255 255.255.255.255 169.254.169.254 1.2.3.4 ::1 :: 2001:db8::1 fe80::1 \
    ff02::1 ::1:0:0 64:ff9b::1.2.3.4 2001:db8:0:0:0:0:0:1 ::fffe:127.0.0.1 ::1:ffff:7f00:1 localhost example.com \
    www.example.com a x-y.example xn--bcher-kva.example _dmarc.example.com 1.example 127.0.0.1.example \
    0x7f.example 0x.example a1 1a 0xg 0x7g com1 1e3 a.b.c.d.e.f example.0x7fg 1-2 -1 1_";

const REFUSED: &str =
    "127.1 127.0.1 2130706433 0x7f000001 0x7f.1 0x7f.0.0.1 0x7f.0x0.0x0.0x1 0177.0.0.1 0177.1 017700000001 \
    127.0.0.01 127.0.0.001 127.00.0.1 0127.0.0.1 127.0.0.256 256.0.0.1 1.2.3.4.5 127.0.0.1. 127.1. 0 00 0x 0x0 \
    0xff 1 08 1.2 a.1 a.0x1 example.123 example.0x example.com. example.com.. localhost. . .. a.. ::ffff:127.0.0.1 \
    ::ffff:7f00:1 0:0:0:0:0:ffff:7f00:1 ::ffff:0:0 ::127.0.0.1 ::7f00:1 ::2 ::ffff ::a00:1 0::0.0.0.2 Example.com \
    EXAMPLE.COM LOCALHOST ex%61mple.com fe80::1%lo fe80::1%1 [::1] ::1] 127.0.0.1%lo a,b a/b a:80 127.0.0.1:80 \
    user@a a#b a?b a*b é.example";

#[test]
fn a_host_is_reached_in_one_spelling(rt: HostRuntime) {
    for host in REACHED.split_ascii_whitespace() {
        assert!(rt; has_one_spelling(host), "{host:?} is reached");
    }
    for host in REFUSED.split_ascii_whitespace() {
        assert!(rt; !has_one_spelling(host), "{host:?} is not reached");
    }
    assert!(rt;
        !has_one_spelling("") && !has_one_spelling(" ") && !has_one_spelling("127.0.0.1 a")
    );
}
