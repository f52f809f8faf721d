//! What the command line says of itself.

pub const ABOUT: &str = "A stateful IPv4 packet filter and NAT gateway";

/// The version of the program.
pub const VERSION: &str = "0.1.0";

pub const OVERVIEW: &str = "\
Packets, rulesets and moments come in as request frames, and an answer frame to each goes out.
The rules and the sessions lie in two files of a directory. What was answered outlives a kill or
a loss of power at any moment. No clock is read: time comes from the requests and from --at.

Where a command gives up its status is 1, and standard error says why in a word, and what to do.
natgw replay --help tells of the frames, natgw check --help of rulesets.

Example: a ruleset and a packet, and the session that there is then.
  mkdir state
  natgw replay --dir state --inside 192.168.0.0/16 --external 203.0.113.1 < requests > answers
  natgw show --dir state --inside 192.168.0.0/16 --external 203.0.113.1";

pub const REPLAY: &str =
    "Answers request frames on standard input by answer frames on standard output";

pub const FRAMES: &str = "\
A request frame is, with the highest byte of each number first:
  kind       1 byte   1 packet, 2 load of a ruleset, 3 moment
  interface  1 byte   of a packet: 0 lan, 1 wan; otherwise 0
  length     4 bytes  of the body: of a packet at most 65535, of a load at most 262144,
                      of a moment 0
  moment     8 bytes  in seconds
  body                the packet from its IPv4 header on, or the ruleset's text
An answer frame is:
  kind       1 byte   1 forward, 2 dropped, 3 loaded, 4 refused, 5 ticked
  number     8 bytes  of the event: 1, 2, ..
  length     4 bytes  of the body
  body                forward: the interface (1 byte) and the packet;
                      dropped: the number of the cause (1 byte)

Example: answers the frames of a file.
  natgw replay --dir state --inside 192.168.0.0/16 --external 203.0.113.1 < requests > answers";

pub const SERVE: &str = "Serves the clients of a Unix socket, one after the other";

pub const CLIENTS: &str = "\
A client sends request frames and reads answer frames, as natgw replay --help tells. A fault in
what it sends ends its connection alone: the word goes to standard error. Clients that connect
meanwhile wait. A path that exists is refused, and the socket is removed at the end; where natgw
is killed it stays, and is to be removed by hand. Once clients may connect, standard error says
so, and where NOTIFY_SOCKET is set, READY=1 is sent there, as systemd wants it.

Example: a client after the other, from now on.
  natgw serve --dir state --at \"$(date +%s)\" --socket natgw.sock --connections 1000000 \\
      --inside 192.168.0.0/16 --external 203.0.113.1";

pub const LOOP: &str =
    "Sends the request frames of a file through a socket of its own to itself, and prints the answers";

pub const TRIED: &str = "\
It tries directory, socket and ruleset in one go. The socket is natgw.sock in the directory: it
is refused where it exists, and removed at the end.

Example:
  natgw loop --dir state --inside 192.168.0.0/16 --external 203.0.113.1 requests";

pub const SHOW: &str = "Lists the sessions that the two files keep";

pub const COLUMNS: &str = "\
One line a session: the protocol, the inside, the outside and the remote endpoint, and partial,
established or closing, or - for UDP:
  tcp 192.168.1.3:40000     203.0.113.1:40000     198.51.100.7:443      established
  udp 192.168.1.2:5000      203.0.113.1:5000      198.51.100.7:53       -
With --json an object a line, with protocol, inside, outside, remote, opener and phase, which is
null for UDP. With --running the directory may be one in which another natgw works.

Examples:
  natgw show --dir state --inside 192.168.0.0/16 --external 203.0.113.1
  natgw show --running --json --dir state --inside 192.168.0.0/16 --external 203.0.113.1";

pub const RULES: &str = "Prints the ruleset in force, byte for byte as it was loaded";

pub const IN_FORCE: &str = "\
Before any ruleset is loaded nothing is printed. With --running the directory may be one in
which another natgw works.

Example:
  natgw rules --running --dir state --inside 192.168.0.0/16 --external 203.0.113.1";

pub const CHECK: &str =
    "Says whether a ruleset would load: ok, or the line and the kind of its fault";

pub const KINDS: &str = "\
One line is printed: ok, with status 0, or the fault, with status 1:
  too-long       more than 262144 bytes
  family         a table of another family than ip and inet
  unsupported    a statement or word that natgw doesn't know
  syntax         another token where it can't stand, or a text that ends too early
  unknown-chain  a jump or goto to no chain without a hook in the same table
  unknown-set    @ with a name that no set of the same table has
  duplicate      two tables of one family, or two chains or sets of one table, of one name,
                 or two type or elements lines in a set
  loop           chains that come back to themselves by jumps and gotos
  depth          a path of more than 16 jumps and gotos
  wrong-hook     a chain or a translation at a hook where it can't be
  wrong-type     a value, a set or a translation where one of another type belongs
  not-external   snat to an address that isn't external
  not-inside     dnat to an address in no inside prefix
  limit          more than 256 chains, 4096 rules, or 16384 elements and pairs
  overlap        two keys of a verdict map for one value

Example:
  natgw check --inside 192.168.0.0/16 --external 203.0.113.1 rules.nft";
