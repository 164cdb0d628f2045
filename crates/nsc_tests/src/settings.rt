// Tests of lines of nscd.conf(5) and of the rules of service lists.
use nsc_daemonconf::read_conf;
use nsc_model::{Conf, ConfFault, Db, DbName, SwitchAction, SwitchService, SwitchStep};
use nsc_switchconf::service_list;
use std::test::Fail;

// The lines that distributions ship for one database, with settings that no replay shows.
const SHIPPED: &[u8] = b"\tserver-user nscd
#\treload-count 7
\tthreads 6
\tpositive-time-to-live passwd 600
\tnegative-time-to-live passwd 21
\tpersistent passwd yes
\tshared passwd yes
\tmax-db-size passwd 77
\tauto-propagate passwd no
\tenable-cache netgroup no
";

#[test]
fn settings_of_lines(rt: HostRuntime) {
    let mut conf = Conf::defaults();
    conf.threads = 6;
    conf.passwd.positive = 600;
    conf.passwd.negative = 21;
    conf.passwd.persistent = true;
    conf.passwd.shared = true;
    conf.passwd.max_size = 77;
    conf.passwd.propagate = false;
    assert_eq!(rt; read_conf(SHIPPED), Ok(conf));
}

#[test]
fn settings_without_lines(rt: HostRuntime) {
    let conf = Conf::defaults();
    assert_eq!(rt; read_conf(b""), Ok(conf));
    assert_eq!(rt; (conf.reloads, conf.threads), (Some(5), 5));
    let group = conf.of(Db::Group);
    assert_eq!(rt;
        (group.enabled, group.check_files, group.propagate),
        (true, true, true)
    );
    assert_eq!(rt; (group.persistent, group.shared), (false, false));
    assert_eq!(rt; (group.size, group.max_size), (211, 33_554_432));
    assert_eq!(rt; (group.positive, group.negative), (3600, 60));
    assert_eq!(rt; conf.of(Db::Services).positive, 28_800);
}

// How often entries are loaded anew at the bounds of what a line may say; `None` is without end.
#[test]
fn reload_counts(rt: HostRuntime) {
    let cases: [(&[u8], Option<u32>); 6] = [
        (b"reload-count 254", Some(254)),
        (b"reload-count 0xFE", Some(254)),
        (b"reload-count 0x9a", Some(154)),
        (b"reload-count 255", None),
        (b"reload-count 0xffffffff", None),
        (b"reload-count Unlimited", None),
    ];
    for (text, reloads) in cases {
        let read = read_conf(text).map(|conf| conf.reloads);
        assert_eq!(rt; read, Ok(reloads), "of {text:?}");
    }
}

#[test]
fn faults_of_lines(rt: HostRuntime) -> Result<(), Fail> {
    let fault = ConfFault::BadValue { line: 2 };
    assert_eq!(rt; read_conf(b"\nthreads five\nthreads"), Err(fault));
    let told = format!(in rt.alloc(); "{fault}")?;
    assert_eq!(rt; told.as_str(), "configuration line 2: bad value");
    Ok(())
}

const fn step(
    service: SwitchService,
    notfound: SwitchAction,
    unavail: SwitchAction,
    tryagain: SwitchAction,
) -> SwitchStep {
    SwitchStep {
        service,
        success: SwitchAction::Return,
        notfound,
        unavail,
        tryagain,
    }
}

// Rules for TRYAGAIN, which no file gives, and their order.
#[test]
fn rules_in_their_order(rt: HostRuntime) -> Result<(), Fail> {
    let text = b"passwd: files [!SUCCESS=return TRYAGAIN=continue] extrausers";
    let list = service_list(rt.alloc(), text, DbName::Passwd)?;
    let files = step(
        SwitchService::Files,
        SwitchAction::Return,
        SwitchAction::Return,
        SwitchAction::Continue,
    );
    let extra = step(
        SwitchService::Extrausers,
        SwitchAction::Continue,
        SwitchAction::Continue,
        SwitchAction::Continue,
    );
    assert_eq!(rt; list.as_slice(), [files, extra].as_slice());
    let text = b"passwd: files [TRYAGAIN=continue !SUCCESS=return] extrausers";
    let list = service_list(rt.alloc(), text, DbName::Passwd)?;
    let files = step(
        SwitchService::Files,
        SwitchAction::Return,
        SwitchAction::Return,
        SwitchAction::Return,
    );
    assert_eq!(rt; list.as_slice(), [files, extra].as_slice());
    Ok(())
}
