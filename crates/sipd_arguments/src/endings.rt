//! What stands at the end of a command's help: how it may be called, how it ends, and which page has more; and how lines of two are written.

pub(crate) const PROGRAM: &str = "\
Ends with 0 done, 1 usage, no answer, or a policy that changes, 2 configuration, or a policy that isn't as expected, 3 script or record, 4 device, 5 memory, 6 another decision.
More: man sipd, man sipd.toml, docs/OPERATING.md";

pub(crate) const CHECK: &str = "\
Example: sipd check --config new.toml --against office.toml --expect office.expected
Ends with 0 where it is taken, 1 usage, or a line of FILE isn't one, 2 refused, or the policy isn't as a line, 3 a server that runs can't take the change, or OLD is damaged, 4 device, 5 memory.
More: man sipd.toml, docs/CONFIGURATION.md";

pub(crate) const REPLAY: &str = "\
Example: sipd replay --record /var/lib/sipd/records/1795638404213.record
Ends with 0 done, 1 usage, 2 configuration, 3 the line from which on it is damaged, no record, or one of a folder that is missing, 4 device, 5 memory.
More: docs/SCRIPTS.md";

pub(crate) const COMPACT: &str = "\
Example: sipd compact --config office.toml old.record new.record
Ends with 0 done, 1 usage, 2 configuration, 3 OLD can't be gone on from, or isn't made shorter, 4 device, 5 memory.
More: docs/OPERATING.md";

pub(crate) const SERVE: &str = "\
Example: sipd serve --config office.toml --reload --records /var/lib/sipd/records
Ends by a signal, or with 0 behind its turns, 1 usage, 2 configuration, 4 device, 5 memory or stack.
More: docs/OPERATING.md";

pub(crate) const DECIDE: &str = "\
Example: sipd decide --config office.toml --user alice INVITE bob@office.local
Ends with 0 done, 1 usage or no answer, 2 configuration, 4 device, 5 memory, 6 where another decision is expected.
More: docs/OPERATING.md";

pub(crate) const MATRIX: &str = "\
Example: sipd matrix --config new.toml --against office.toml
Ends with 0 done, 1 where a cell changes, usage or no such method, 2 configuration, 3 OLD is damaged, 4 device, 5 memory.
More: docs/CONFIGURATION.md";

pub(crate) const REPORT: &str = "\
TIME is a date, as 2026-10-14, or with a time of day, as 2026-10-14T06:30, on the office's clock.
Example: journalctl -u sipd -o cat | sipd report --config office.toml --since 2026-10-14 --denied
Ends with 0 done, 1 usage or no such time, 2 configuration, 3 no record, or a damaged one, 4 device, 5 memory.
More: docs/OPERATING.md";

pub(crate) const CALLS: &str = "\
TIME is a date, as 2026-10-14, or with a time of day, as 2026-10-14T06:30, on the office's clock.
Example: sipd calls --record /var/lib/sipd/records/*.record --since 2026-10-14 --user alice
Ends with 0 done, 1 usage or no such time, 2 configuration, 3 damaged record behind what came before, 4 device, 5 memory.
More: docs/OPERATING.md";

pub(crate) const PHONES: &str = "\
TIME is a date, as 2026-10-14, or with a time of day, as 2026-10-14T06:30, on the office's clock.
Example: sipd phones --record /var/lib/sipd/records/1795638404213.record --at 2026-10-14T10:32
Ends with 0 done, 1 usage or no such time, 2 configuration, 3 damaged record behind what came before, 4 device, 5 memory.
More: docs/OPERATING.md";

pub(crate) const NOW: &str = "\
TIME is a date, as 2026-10-14, or with a time of day, as 2026-10-14T06:30, on the office's clock.
Example: sipd now --record /var/lib/sipd/records/1795638404213.record
Ends with 0 done, 1 usage or no such time, 2 configuration, 3 damaged record behind what came before, 4 device, 5 memory.
More: docs/OPERATING.md";

/// How a line of `trace` is written, as of `ladder`.
pub(crate) const TRACE_LINES: &str = "\
sipd trace [OPTIONS] --record <FILE>... --pcap <OUT> [CALL]
       sipd trace [OPTIONS] --record <FILE>... --pcap <OUT> -- <CALL>  (put -- before one that begins with -)";

pub(crate) const TRACE: &str = "\
CALL in front of --record: the number of a line of the log or of sipd calls, or a Call-ID.
Example: sipd trace 4711 --record /var/lib/sipd/records/1795638404213.record --pcap call.pcap --hide
Ends with 0 done, 1 usage, 2 configuration, 3 damaged record behind what came before, 4 device, or OUT is there, 5 memory.
More: docs/OPERATING.md";

/// How a line of `ladder` is written: a Call-ID that begins with `-` would be taken for an option, and the refusal says how to give it.
pub(crate) const LADDER_LINES: &str = "\
sipd ladder [OPTIONS] --record <FILE>... <CALL>
       sipd ladder [OPTIONS] --record <FILE>... -- <CALL>  (put -- before one that begins with -)";

pub(crate) const LADDER: &str = "\
CALL in front of --record: the number of a line of the log or of sipd calls, or a Call-ID.
Example: sipd ladder 4711 --record /var/lib/sipd/records/1795638404213.record
Ends with 0 done, 1 usage or no such call, 2 configuration, 3 damaged record behind what came before, 4 device, 5 memory.
More: docs/OPERATING.md";

pub(crate) const SOURCES: &str = "\
TIME is a date, as 2026-10-14, or with a time of day, as 2026-10-14T06:30, on the office's clock.
Example: sipd sources --record /var/lib/sipd/records/*.record --since 2026-10-14
Ends with 0 done, 1 usage, or no such time or address, 2 configuration, 3 damaged record behind what came before, 4 device, 5 memory.
More: docs/OPERATING.md";

pub(crate) const PAGE: &str = "\
Without a script, and without anything of the net: it can be kept, printed and sent as one file.
Example: sipd page --record /var/lib/sipd/records --log sipd.log > days.html
Ends with 0 done, 1 usage, 2 configuration, 3 damaged record, of which nothing is printed, 4 device, 5 memory.
More: docs/OPERATING.md";

pub(crate) const USER: &str = "\
Example: echo sesame | sipd user carol --config office.toml >> office.toml
Ends with 0 done, 1 usage or no such table, 2 configuration, 4 device, 5 memory.
More: docs/OPERATING.md";
