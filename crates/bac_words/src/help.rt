//! The texts of the help, of the tools and of their words.

/// The program and its version, for the help.
pub(crate) const ABOUT: &str =
    "bactool 0.4.0: reads and writes properties of BACnet/IP controllers, finds devices, and plays a small device";

pub(crate) const READS: &str = "Reads a property of an object, and prints its value";

pub(crate) const WRITES: &str = "Writes a property of an object, or relinquishes a priority";

pub(crate) const SEARCHES: &str =
    "Asks which devices are at an address, and prints those that answer";

pub(crate) const SERVES: &str = "Plays a small device with eleven points, to try things out";

pub(crate) const RUNS: &str =
    "Makes the requests of standard input over one socket, and prints a journal";

pub(crate) const TRACES: &str =
    "Runs a script of requests, datagrams and clock ticks from standard input";

pub(crate) const TYPICAL: &str = "A typical line of each tool:
  bactool bacrp 1234 0 5 85 --mac 192.0.2.7
      reads the present value (85) of analog input (0) 5
  bactool bacwp 1234 1 1 85 8 -1 4 41a00000 --mac 192.0.2.7
      writes 20.0, a Real (4), to analog output (1) 1 at priority 8; bacwp --help lists the tags
  bactool bacwi 1000 1999 --mac 192.0.2.7
      asks for the devices 1000 to 1999
  bactool bacdev 1234
      is the device 1234 at UDP port 47808
  bactool bacrun < requests
      makes many requests over one socket, and prints a journal, which bactrace replays
  bactool bactrace < session.trace
      runs a script, without a network

Status: 0 done, or help; 1 another answer, or no answer; 2 wrong words or a bad line;
3 a port, a datagram or a text that failed; 4 out of memory

Numbers of types, properties, units and codes: man bactool-numbers";

pub(crate) const READ_LINES: &str = "Example:
  bactool bacrp 1234 0 5 85 --mac 192.0.2.7
      prints 4290999a, the octets of the Real 72.3

Prints one line. Status 0: the value, in the form that bacwp accepts, except
  \"text\"  X'01ff'  B'1010'  D'7c0a1f04'  T'0c1e0000'  {1,2}  null
which are a string, octets, bits, a date, a time, several values, and Null. Its type is not printed.
Status 1: timeout, segmented, bad-error, bad-ack, or
  error CLASS CODE  1 31 unknown object, 2 32 unknown property, 2 42 no such element, 2 50 not an array
  reject REASON     4 to 7 the device could not read the request, 9 unknown service
  abort REASON      1, 4 and 11 the value is too long: read it element by element
Status 2: a word is refused, and nothing was sent. The message shows which one, except
  bad mac           --mac is a name, like localhost; or has a route, like 192.0.2.1/5/07, or a port past 65535
An answer from another address than that of --mac does not count: the end is a timeout. An answer that
claims to be forwarded from there counts, whoever sends it: see SECURITY.md.";

pub(crate) const WRITE_LINES: &str = "Tags, and how the value is written:
   0  Null          any word, even a number; it relinquishes the priority
   1  Boolean       true, false, 1 or 0
   2  Unsigned      0 to 18446744073709551615
   3  Signed        -9223372036854775808 to 9223372036854775807
   4  Real          8 hexadecimal digits, like 41a00000 for 20.0; 20000000 is octets too, not a number
   5  Double        16 hexadecimal digits, like 4034000000000000 for 20.0
   6  Octet String  an even number of hexadecimal digits, like 01ff
   7  String        a text in UTF-8 as one word, so in quotes if it has a space: \"Room 5\"
   8  Bit String    digits 0 and 1, the first bit first, like 1010
   9  Enumerated    0 to 4294967295
  10  Date          8 hexadecimal digits: year minus 1900, month, day, day of the week, like 7c0a1f04
  11  Time          8 hexadecimal digits: hour, minute, second, hundredths, like 0c1e0000
  12  Object        TYPE:INSTANCE, like 8:1234
Put a text that begins with a dash and no digit last, after --, as in: --mac 192.0.2.7 -- 7 -x

Examples:
  bactool bacwp 1234 1 1 85 8 -1 4 41a00000 --mac 192.0.2.7
      writes 20.0 to the present value of analog output 1 at priority 8
  bactool bacwp 1234 1 1 85 8 -1 0 null --mac 192.0.2.7
      relinquishes priority 8

Prints one line. Status 0: ok. Status 1: timeout, segmented, bad-error, bad-ack, or
  error CLASS CODE  1 31 unknown object, 2 32 unknown property, 2 9 wrong type, 2 37 out of range,
                    2 40 not writable, 2 42 no such element, 2 50 not an array
  reject REASON     4 to 7 the device could not read the request, 9 unknown service
  abort REASON      the device gave up
Status 2: a word is refused, and nothing was sent. The message shows which one, except
  bad mac           --mac is a name, like localhost; or has a route, like 192.0.2.1/5/07, or a port past 65535
  bad index         the word after the priority is neither -1 nor a number, like all
  bad value N       the N-th tag is past 12, or its value is missing or not in the form above, like 4 20.0;
                    or the index was forgotten, so that the tag was read as the index
  body too long     object, property and values have more than 476 octets together
Only status 2, status 4 and bind failed say that nothing was sent. After any other status except 0, and
after Ctrl-C, the write may have been made: read the property back. An answer from another address than
that of --mac does not count: the end is a timeout. An answer that claims to be forwarded from there
counts, whoever sends it: see SECURITY.md.";

pub(crate) const SEARCH_LINES: &str = "Examples:
  bactool bacwi --mac 192.0.2.7
      asks for every device
  bactool bacwi 1000 1999 --mac 192.0.2.7
      asks for the devices 1000 to 1999

Prints a line for each answer: INSTANCE ADDRESS:PORT, the octets of an APDU that it accepts, its
segmentation (3: neither way) and its vendor, like 1234 192.0.2.7:47808 1476 3 260.
Status 0: at least one answer. Status 1: no answer.
Status 2: a word is refused, and nothing was sent. The message shows which one, except
  bad mac           --mac is a name, like localhost; or has a route, like 192.0.2.1/5/07, or a port past 65535";

pub(crate) const SERVE_LINES: &str = "Example:
  bactool bacdev 1234
      answers Who-Is, ReadProperty and WriteProperty as the device 1234

Prints nothing, and ends after --count datagrams, or after 65536 turns. A turn is a datagram, or a
second without one: about 18 hours of silence.
Status: 0 after --count datagrams, or help; 2 wrong words; 3 the port is not available, a receive
failed, or turns spent; 4 out of memory";

pub(crate) const RUN_LINES: &str = "Example:
  bactool bacrun < requests > journal
      with a line in requests: read 192.0.2.7 0 5 85

Lines of the input:
  read PEER TYPE INSTANCE PROPERTY [INDEX]
  write PEER TYPE INSTANCE PROPERTY PRIORITY INDEX TAG VALUE [TAG VALUE ..]
      a request, in the words of a script, see man bactrace; PEER may have a route, like 192.0.2.1/5/07
  who PEER [LOW HIGH]
      sends one Who-Is, for the instances LOW to HIGH if they are given, and waits for no answer. With
      192.0.2.1/5 the router 192.0.2.1 broadcasts it in network 5, with 192.0.2.1/* in all networks
      behind it: this loads them. Most stations answer by broadcast, which reaches only port 47808
  wait MILLISECONDS
      continues for this long, at most 60000, with whatever is open
An empty line waits until no request is open. A line that begins with # is skipped.
A line is read once fewer than --window requests are open, and nothing is received while bacrun waits
for a line: with a window above 1, end a group of requests with an empty line to get their answers.

Prints a journal, which is a script of bactrace: client TIMEOUT RETRIES 0, each line of the input
that was done, each datagram (data PEER HEX) and each time (tick MILLISECONDS). The results of these
follow them as remarks, each # and a line as bactrace prints it:
  send TICKET PEER HEX  a request was sent; the first has the ticket 0
  unsent PEER HEX       the system refused to send this; it counts as lost
  done TICKET OUTCOME   it was answered: ok, value and the value, or what bacrp and bacwp print
  timeout TICKET        it had no answer
  drop                  a datagram that answers nothing
  who PEER HEX          a Who-Is was sent
  wait MILLISECONDS     this wait is over
  too-long              object, property and values have more than 476 octets together
A remark that is too long for a line continues in lines that begin with #+.

Status 0: each line was done, whatever the answers. Status 2: a word is refused; or a line is, which is
reported with its number once the open requests are over. Status 3: a port, a datagram or a text that
failed, or turns spent. Status 4: out of memory.
With a window above 1 a device may carry out the open requests in any order: put an empty line between
a write and anything that must come after it.";

pub(crate) const TRACE_LINES: &str = "Example:
  bactool bactrace < session.trace
      with a line in session.trace: read 192.0.2.7 0 5 85

Lines of a script, each with what it prints:
  client TIMEOUT RETRIES TICKET               nothing; it comes before all others
  read PEER TYPE INSTANCE PROPERTY [INDEX]    send TICKET PEER HEX, full, or spent
  write PEER TYPE INSTANCE PROPERTY PRIORITY INDEX TAG VALUE [TAG VALUE ..]
                                              the same, or too-long
  data PEER HEX                               done TICKET OUTCOME, or drop
  tick MILLISECONDS                           for each request that is due: send TICKET PEER HEX,
                                              or timeout TICKET
  ask PEER HEX                                reply PEER HEX, or silent
A line ask goes to the device that bacdev plays, all others to a client. A line that begins with #
is skipped. PEER is an address, like 192.0.2.7, 192.0.2.7:47809 or 192.0.2.1/5/07; HEX has the octets
of a whole datagram. For the range of each word see man bactrace";

pub(crate) const DEVICE: &str = "Instance of the device, 0 to 4194303, like 1234; it is not sent";

pub(crate) const OWN_INSTANCE: &str = "Instance of the device, 0 to 4194302, like 1234";

pub(crate) const OBJECT_TYPE: &str = "Type of the object, 0 to 1023, such as
0 analog input, 1 analog output, 2 analog value, 3 binary input, 4 binary output,
5 binary value, 8 device, 13 multi-state input, 14 multi-state output,
19 multi-state value";

pub(crate) const OBJECT_INSTANCE: &str = "Instance of the object, 0 to 4194303, like 5;
with type 8, 4194303 is the device that is asked";

pub(crate) const PROPERTY: &str = "Number of the property, 0 to 4194303, such as
85 present value, 77 object name, 76 object list, 87 priority array,
104 relinquish default, 111 status flags, 117 units";

pub(crate) const ELEMENT: &str =
    "Element of an array, 0 to 4294967295, like 3; 0 is the number of elements
[default: the whole property]";

pub(crate) const PRIORITY: &str =
    "Priority, 1 (most urgent) to 16, like 8; 0 is no priority, which means 16;
6 is reserved for the device itself";

pub(crate) const WRITTEN_ELEMENT: &str =
    "Element of an array, 0 to 4294967295, like 3; -1 is the whole property";

pub(crate) const PAIRS: &str =
    "A tag, 0 to 12, and its value, like 4 41a00000; several pairs for several values";

pub(crate) const LEAST: &str = "Lowest instance, 0 to 4194303, like 1000 [default: all are asked]";

pub(crate) const MOST: &str = "Highest instance, 0 to 4194303, like 1999 [default: the lowest]";

pub(crate) const MAC: &str = "Address to send to, like 192.0.2.7 or 192.0.2.7:47809
[default port: 47808]";

pub(crate) const TIMEOUT: &str = "Milliseconds until a request is sent again or
given up, 1 to 60000, like 500 [default: 3000]";

pub(crate) const SEARCH_TIME: &str = "Milliseconds to wait for answers, 1 to 60000,
like 500 [default: 3000]";

pub(crate) const RETRIES: &str = "How often a request is sent again, 0 to 9, like 1 [default: 3]";

pub(crate) const PORT: &str = "UDP port to send from, 0 to 65535, like 47809; 0 is any free one
[default: 0]; at a fixed port, a late answer to an earlier call
may be accepted as the answer to this one: omit the option, or
wait until the earlier call is over";

pub(crate) const RUN_PORT: &str = "UDP port to send from, 0 to 65535, like 47809; 0 is any free one
[default: 0]; at a fixed port, a late answer to an earlier run
may be accepted as the answer to a request of this one: omit the
option, or wait until the earlier run is over";

pub(crate) const WINDOW: &str = "Requests that may be open at once, 1 to 64, like 8
[default: 1]";

pub(crate) const SEARCH_PORT: &str = "UDP port to send from and to listen at, 0 to 65535,
like 47808; 0 is any free one [default: 0];
a device that answers by broadcast is heard only at the port
that it broadcasts to; at a fixed port, a late answer to an
earlier search is accepted too";

pub(crate) const SERVE_PORT: &str =
    "UDP port to listen at, 0 to 65535, like 47809; 0 is any free one,
which is not printed: see man bacdev [default: 47808]";

pub(crate) const COUNT: &str = "Datagrams after which it ends, 1 to 65535, like 10
[default: 65535]";
