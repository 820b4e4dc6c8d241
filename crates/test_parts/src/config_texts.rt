//! The configurations of `examples/`, copied by `tests/examples_agree.sh`.

/// `examples/sample.toml`.
pub const SAMPLE: &str = "version = 1
realm = \"testrealm@host.com\"
host = \"sip.host.com\"
port = 5060
address = \"127.0.0.1:5060\"
domains = [\"host.com\"]

[[user]]
name = \"Mufasa\"
a1 = \"939e7578ed9e3c518a452acee763bce9\"
groups = [\"staff\"]

[[user]]
name = \"alice\"
a1 = \"11111111111111111111111111111111\"

[[user]]
name = \"help\"
a1 = \"22222222222222222222222222222222\"

[[hop]]
name = \"gw\"
address = \"127.0.0.1:5090\"

[[host_address]]
host = \"pc.host.com\"
address = \"127.0.0.1:5091\"

[[rule]]
id = 1
who = \"proven\"
op = \"register\"
target = \"self\"
verdict = \"allow\"

[[rule]]
id = 2
who = \"proven\"
op = \"list\"
target = \"self\"
verdict = \"allow\"

[[rule]]
id = 3
who = \"anyone\"
op = \"send *\"
target = \"vault@host.com\"
verdict = \"deny\"

[[rule]]
id = 4
who = \"anyone\"
op = \"send *\"
target = \"help@host.com\"
verdict = \"allow\"

[[rule]]
id = 5
who = \"group staff\"
op = \"send INVITE\"
target = \"9*@host.com\"
verdict = \"via gw\"

[[rule]]
id = 6
who = \"proven\"
op = \"send *\"
target = \"@host.com\"
verdict = \"allow\"
";

/// `examples/office.toml`.
pub const OFFICE: &str =
    "# A small office whose phones and server run on one host. To serve phones on other machines, write the
# address of this machine wherever 127.0.0.1 stands.

# Version 2 may have `offset`, and rules with `from` and `until`. Version 1 may not.
version = 2

# Minutes ahead of UTC, -720 to 840: the minutes of rules are those of this time of day. 0 if it isn't given.
offset = 60

# What phones ask a password for. It is part of each user's digest: who changes it makes all digests anew.
realm = \"office\"

# How this server calls itself in messages. Phones send the ACK and the BYE of a call there, so they must be
# able to reach it: a name that they can look up, or the address where there is no DNS.
host = \"127.0.0.1\"

# The port by which phones know this server.
port = 5060

# The address and the port at which it waits for datagrams.
address = \"127.0.0.1:5060\"

# The domains whose users are its own. The server's address is one of them, since some phones register there.
domains = [\"office.local\", \"127.0.0.1\"]

# A user: one table for each. A phone registers as alice@office.local with the password `wonderland`.
[[user]]
name = \"alice\"
# MD5 of name:realm:password, in lower case: printf '%s' 'alice:office:wonderland' | md5sum
a1 = \"f315b3aa262bab81c2bbaf33f0aab9f1\"
# SHA-256 of the same, for phones that can do it: printf '%s' 'alice:office:wonderland' | sha256sum
# All users have it, or none: as soon as one has it, every phone is offered both, and those that can do it
# answer by it. Some that know MD5 alone give up at that offer, so it is left out here.
# a1_sha256 = \"7128eacb9832ba27022d2c1a56d078076a711136ae04d7f53809e1ab9bed68c5\"
# Groups that rules may name; they needn't be there.
groups = [\"staff\"]

# bob, whose password is `builder`.
[[user]]
name = \"bob\"
a1 = \"dbcb57862a26e3282c5eb6a2e424c0ab\"

# A hop: where a rule may send requests, as a gateway to another network.
[[hop]]
name = \"gateway\"
address = \"127.0.0.1:5090\"

# Where requests for a host go, in place of DNS. Without `port` it is 5060. An address needs no such table.
[[host_address]]
host = \"desk.office.local\"
port = 5070
address = \"127.0.0.1:5091\"

# Rules. The first that holds and matches decides; where none does, the request is denied. `who` is `anyone`,
# `proven` (any user who showed a password), `user NAME` or `group NAME`; `op` is `register`, `list` (a
# REGISTER that asks for its bindings), `send METHOD` or `send *`; `target` is `self` (the user's own
# address), `USER@DOMAIN`, `PREFIX*@DOMAIN`, `@DOMAIN` or `*`; `verdict` is `allow`, `deny` or `via HOP`.

# Users register their own phones, and see where they are registered.
[[rule]]
id = 1
who = \"proven\"
op = \"register\"
target = \"self\"
verdict = \"allow\"

[[rule]]
id = 2
who = \"proven\"
op = \"list\"
target = \"self\"
verdict = \"allow\"

# Phones publish their presence, and subscribe to it, at their own address. There is no presence here, and
# what is sent to oneself would come back to the phone.
[[rule]]
id = 3
who = \"proven\"
op = \"send PUBLISH\"
target = \"self\"
verdict = \"deny\"

[[rule]]
id = 4
who = \"proven\"
op = \"send SUBSCRIBE\"
target = \"self\"
verdict = \"deny\"

# The staff calls numbers that begin with 9 through the gateway, from 8:00 to before 18:00: `from` and
# `until` are minutes of the day, both or neither. Over midnight `from` is the greater one.
[[rule]]
id = 5
who = \"group staff\"
op = \"send INVITE\"
target = \"9*@office.local\"
verdict = \"via gateway\"
from = 480
until = 1080

# Users call each other, by either domain.
[[rule]]
id = 6
who = \"proven\"
op = \"send *\"
target = \"@office.local\"
verdict = \"allow\"

[[rule]]
id = 7
who = \"proven\"
op = \"send *\"
target = \"@127.0.0.1\"
verdict = \"allow\"

# Nobody registers, or asks for, the phones of another. These two rules are for proven users, so a stranger is
# asked for a password whatever the name is, and can't tell which names there are.
[[rule]]
id = 8
who = \"proven\"
op = \"register\"
target = \"*\"
verdict = \"deny\"

[[rule]]
id = 9
who = \"proven\"
op = \"list\"
target = \"*\"
verdict = \"deny\"
";
