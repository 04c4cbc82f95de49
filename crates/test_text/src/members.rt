//! What a member is set to. The order of the partners and the limits were worked out by hand from the rules.
use edge_traits::Addr;
use key_book::Account;
use ms_auth::Kind;
use std::alloc::Global;
use std::test::Fail;
use time_machine::Conf;
use w32t_settings::read_settings;
use w32tm_text::{ConfFault, conf_of};

const KEY: [u8; 16] = [0, 1, 2, 3, 4, 5, 6, 7, 8, 9, 10, 11, 12, 13, 14, 15];

const MEMBER: &str = "Name=WS1
Role=Member
Rid=1103
account 1103 000102030405060708090a0b0c0d0e0f
computer DC1 10.0.0.1:123 S---
computer DC2 10.0.0.2:123 S--E
computer DC3 10.0.0.3:123 -R--
";

/// The account of Rid isn't the first one, and a short message could not name it.
const EXTENDED: &str = "Name=DC9
Role=Controller
Rid=3000000000
Auth=Extended
account 1103 0f0e0d0c0b0a09080706050403020100
account 3000000000 000102030405060708090a0b0c0d0e0f
computer DC9 10.0.0.9:123 SR-E
computer DC2 10.0.0.2:1123 S---
computer DC3 10.0.0.3:123 -R--
";

/// The PDC emulator doesn't ask itself, and asks no other emulator of its domain.
const WITHOUT_PARTNER: [&str; 3] = [
    "computer DC1 10.0.0.1:123 S--E\n",
    "computer DC1 10.0.0.1:123 SRPE\ncomputer DC2 10.0.0.2:123 S--E\n",
    "",
];

fn read(alloc: Global, text: &str) -> Result<Result<Conf, ConfFault>, Fail> {
    if text.len() > 16_777_217 {
        return Err(Fail::from("a text that is too long"));
    }
    let settings = read_settings(alloc, text.as_bytes()).map_err(|_| "no settings")?;
    Ok(conf_of(alloc, &settings))
}

// 10.0.0.1, 10.0.0.2 and 10.0.0.3, which the texts have.
const FIRST: Addr = Addr {
    ip: 0x0A00_0001,
    port: 123,
};

const SECOND: Addr = Addr {
    ip: 0x0A00_0002,
    port: 123,
};

const THIRD: Addr = Addr {
    ip: 0x0A00_0003,
    port: 123,
};

// Texts, and what a member is set to by them: the kind of its messages, the RID of its account, its limits in seconds
// and its poll exponents, and its partners in their order.
const MEMBERS: &[(&str, Kind, u32, [u32; 3], [u8; 2], &[Addr])] = &[
    (
        MEMBER,
        Kind::Short,
        1103,
        [4_294_967_295, 4_294_967_295, 300],
        [10, 15],
        &[SECOND, FIRST, THIRD],
    ),
    (
        EXTENDED,
        Kind::Extended,
        3_000_000_000,
        [172_800, 172_800, 300],
        [6, 10],
        &[THIRD],
    ),
];

#[test]
fn members_are_set(rt: HostRuntime) -> Result<(), Fail> {
    for (text, kind, rid, seconds, polls, partners) in MEMBERS {
        let conf = read(rt.alloc(), text)?.map_err(|_| "no conf")?;
        let account = Account {
            rid: *rid,
            current: KEY,
            previous: None,
        };
        let limits = conf.limits;
        assert_eq!(rt; (conf.kind, conf.account), (*kind, account), "{rid}");
        assert_eq!(rt; conf.partners.as_slice(), *partners, "{rid}");
        assert_eq!(rt;
            (
                [limits.max_pos, limits.max_neg, limits.max_allowed],
                [limits.min_poll, limits.max_poll]
            ),
            (*seconds, *polls),
            "{rid}"
        );
    }
    Ok(())
}

#[test]
fn settings_without_a_partner(rt: HostRuntime) -> Result<(), Fail> {
    for computers in WITHOUT_PARTNER {
        let text = format!(in rt.alloc();
            "Name=DC1\nRole=Pdc\nRid=1103\naccount 1103 000102030405060708090a0b0c0d0e0f\n{computers}"
        )?;
        assert_eq!(rt;
            read(rt.alloc(), &text)?.err(),
            Some(ConfFault::NoPartner),
            "at {computers:?}"
        );
    }
    Ok(())
}
