/// The end of `worldd steps --help`.
pub const STEPS_HELP: &str = "\
Each line of the script gets one line of answer:
  open METHOD N        opens a world of N cells, 1 to 1048576, all 0: `ready 0`
                       METHOD is plain, zigzag, pingpong, or one of the last two
                       over two seats: zigzag-shared, pingpong-shared
  set CELL VALUE       puts a value into a cell: `+`
  add CELL DIFFERENCE  adds a difference to a cell, less than 0 or not: `+`
  move FROM TO AMOUNT  takes an amount from a cell and adds it to another: `+`
  swap CELL CELL       exchanges the words of two cells: `+`
  cap CELL VALUE       lowers a cell's word to a value if it is greater: `+`
  get CELL             `= VALUE`
  end                  ends the running tick: `tick NUMBER`
  mark                 opens a round of the words as they are: `mark NUMBER`
  image                one step of the image keeper: `working`,
                       `image open NUMBER` at its last one, `idle` with no round,
                       `image down` once a call has failed
  log                  one step of the log keeper: `working`, `acked NUMBER` if a
                       group of ticks is durable, `idle`, `log down`
  image*, log*         steps until the keeper is idle or down: `image down` or
                       `log down`, else the last `image open NUMBER` or
                       `acked NUMBER`, else `idle`
  cover                drops the ticks that wait for the log and that the newest
                       image has: `acked NUMBER`, or `idle` if none waits so
  fail image, fail log the same, and each call of a device fails
  crash lose           a crash that leaves the durable bytes of each file, and the
                       restart: `recovered NUMBER from NUMBER`, or `blank`
  crash keep           the same, and the bytes that reads show are left
  crash fill HH        the same, and each uncertain byte is HH, from 00 to ff
  world                all values, one space between
A line that is refused gets `- CODE`, and changes nothing:
  1 no such cell, 2 a number out of range, 3 a result out of range,
  4 one cell named twice, 5 the tick is full, 6 too many ticks since a mark,
  7 too many ticks wait for the log, 8 the tick has an action, 9 a round is open,
  10 nothing is new, 11 the image keeper is down, 12 the log keeper is down,
  16 the line isn't understood, 19 the start lasts, 21 no tick numbers are left";

/// The end of `worldd create --help`.
pub const CREATE_HELP: &str = "\
It creates the missing ones of image.a, image.b, log.a and log.b, writes a world of N
cells, all 0, into them, and prints `created N`. A file that is closed, by its first
byte, is overwritten: use a folder for this world only. With --words the cells have the
words that FILE lists: numbers from 0 to 999999999999999999, with a space or a newline
after each and a newline after the last, as `inspect --words` prints them. With --cells
too, it has to list N. With --guard it then writes the file guard, by which an older
world is known. After a fault the status is 1, and the first line on standard error is
`fault CODE`:
  16 FILE lists no world, is cut off or has other than N words: nothing was made,
  17 there is no memory, 18 a file can't be opened or written, is no ordinary file of
  its own, or another program writes this world, 22 a file may hold a world: nothing
  was written";

/// The end of `worldd recover --help`.
pub const RECOVER_HELP: &str = "\
It reads image.a, image.b, log.a and log.b, writes nothing and locks nothing, and prints
`recovered N from T`: they hold the world after tick N, built from the image of tick T.
A file that is empty beside an image of a later tick than 0, or a log that begins after
tick N, was lost. It is named on standard error, or refused with --refuse-losses. That
flag also refuses an empty log beside an image of tick 0. If N is 0 it is only named, and
the status is 14. A read that failed, and was tried again, is named too.
If the folder has the file guard, and N is below its tick, that is named before a lost
file, and the status is 14. A file guard that is none is refused with 18.
If they hold no world the status is 1, and the first line on standard error is
`fault CODE`:
  13 no image is open, 14 an image is damaged or lost, 15 the log is damaged or lost,
  17 there is no memory, 18 a file is missing or can't be read";

/// The end of `worldd inspect --help`.
pub const INSPECT_HELP: &str = "\
It reads image.a, image.b, log.a and log.b, writes nothing and locks nothing, and prints
a line for each, in this order:
  NAME: closed, 9 bytes
  NAME: open, format 2, 2 cells, tick 7, 33 bytes           the world after tick 7
  NAME: open, format 2, base 7, 1 group, 2 ticks, 43 bytes  ticks 8 and 9
  NAME: damaged, 9 bytes                                    open, and of neither format
  NAME: unreadable: REASON
It reads format 1, of an earlier release, and format 2, which this release writes.
It names what was lost, and a world older than its guard, as `recover` does.
Then it prints `recovered N from T in NAME`: the files hold the world after tick N, built
from the image of tick T. If they hold no world it ends as `recover` does.";

/// The end of `worldd status --help`.
pub const STATUS_HELP: &str = "\
It reads image.a, image.b, log.a and log.b, and writes nothing. It asks for the locks by
which a server is known, and gives back at once what it gets. It prints four lines:
  recovered N from T in NAME         as `inspect`
  log: 9 ticks after the image, log.a has 9 of 65536
  bytes: image.a 33, image.b 33, log.a 145, log.b 10, together 221
  server: running, log up, images up
If the folder has the file guard, a line on it is the last but one, with a time that
`date -d @1796018400` prints, at which ticks up to 9 were acknowledged:
  guard: tick 9 at @1796018400, image of tick 7, start 2 of world 6012954214
At 65536 ticks in a segment batches are refused with 6: its server writes no images. The
last line is `server: none` if no program writes the world, and `server: unknown` if this
user can't read image.a. A log or images may be `down`, which lasts up to the server's
end. If the files hold no world this line is all, and it ends as `recover` does, and as
`backup` if no copy can be taken.
With --check it prints one line more. Its status is the one of that line, if it would be 0
without it:
  0 check: well      11 check: images down      12 check: log down
  12 check: files were removed or replaced      15 check: not served, or unknown
  16 check: hangs: no sign of life for S seconds
After ten seconds without one it hangs. Without a guard that isn't known.";

/// The end of `worldd backup --help`.
pub const BACKUP_HELP: &str = "\
It copies the newest image and the log of a world, also while a server writes them, and
locks nothing. It recovers the copy, makes it durable, and prints `backed up N from T`:
the copy holds the world after tick N, built from the image of tick T. It has every tick
that was answered before it began. If there is the file guard, it copies it too, as it
was before. It makes no folder. It names or refuses what was lost, and names a world
older than its guard, as `recover` does. After a fault the files that it made are
removed, or named, the status is 1, and the first line on standard error is `fault CODE`:
  13 no image is open, 14 an image is damaged or lost, 15 the log is damaged or lost,
  17 there is no memory, 18 a file is missing, can't be read or written, or a server
  began a new image under each of 1000 tries, 22 the folder of the copy isn't empty, or
  lies in that of the world";

/// The end of `worldd salvage --help`.
pub const SALVAGE_HELP: &str = "\
It makes a world in an empty folder of what can be read of files that `recover` refuses,
and writes nothing into theirs. A bad image is left out, and a log is cut after its last
whole group whose actions can be played again. A file that can't be read at two tries is
lost, and counts as closed. It prints what it took of each file, and `salvaged N from N`:
the new files hold the world after tick N. The last line is `dropped: nothing`, or names
the files of which something was dropped: later ticks may be lost. Its status is 14 then,
and also if N is below the tick of the file guard, which is named. It makes no guard.
After a fault the files that it made are removed, or named, the status is 1, and the
first line on standard error is `fault CODE`:
  13 no image can be read, 17 there is no memory, 18 a file can't be read or written,
  22 the folder of the new files isn't empty, or lies in that of the world";

/// The end of `worldd serve --help`.
pub const SERVE_HELP: &str = "\
It recovers the world in the folder, and listens on port P of 127.0.0.1, or on a socket
of the system at PATH, until K connections have come and gone, each in a thread of its
own. With --unlimited-clients it never ends by that. It makes no file of the world.
METHOD is zigzag or pingpong, E from 1 to 65536, P from 0 to 65535, K from 1 to 100000,
SECONDS and S up to 86400, PATH of at most 101 bytes. After the last connection the port
or the socket is closed; the file at PATH is removed at the end.
With --exit-when-closed it waits for clients that are left for so many seconds only.
With --exit-when-images-down it ends earlier if no more than 8192 ticks have room.
With --exit-when-replaced it answers no tick after it has seen that.
With --guard it makes the file guard, if the folder has none. In a folder that has it, it
writes the greatest acknowledged tick into it, once a second at most, and serves no world
that is older, also without the flag. With --accept-loss it does, and begins a new guard.
Any user of this machine may connect to a port, and to a socket those whom MODE lets
write its file.
A client writes lines, and `end` closes a batch, which is answered once it is durable:
  set, add, move, swap, cap, get  as in `steps`; a batch has 1024 lines at most
  end  `tick NUMBER: + =5 -3`, a word for each line, or `fault CODE`
It prints, each line at once:
  recovered N from T        it found the world after tick N, built from the image of T
  listening PORT            clients may come; with a socket it is `listening PATH`
  stopped tick N acked A    all are gone: N ticks ended, and those up to A are durable;
                            not after an end by a flag --exit-when-..
On standard error it prints, and drops lines that nobody reads:
  worldd: an image every 64 ticks can halve the speed: give --every, for example 4096
  worldd: FILE is empty, so it was lost        or: begins after ticks that were lost,
                                               is closed as no crash leaves it
  worldd: FILE is empty: if this world was played, its ticks are lost
  worldd: tick T was recovered, and the guard has tick A at @SECONDS: restore newer
      files, or serve them by --accept-loss
  worldd: the loss is accepted: numbers after tick T are given again, since a log has
      no gap
  worldd: the guard wasn't written: REASON     the old one stays, and play continues
  worldd: image of tick T opened
  worldd: images down: FILE: REASON            play continues without images
  worldd: images down: N more ticks can end, then each batch is refused with 6
  worldd: each batch is refused with 6: no image has opened for 65536 ticks
  worldd: log down after tick T: FILE: REASON  batches are answered `fault 12`
  worldd: FILE was removed or replaced: save the files before the server ends
  worldd: session refused: REASON              a client was closed unanswered
  worldd: clients wait: REASON                 there are no descriptors or buffers
  worldd: clients no longer wait
  worldd: the port is closed: no more clients can come       or: the socket
  worldd: listener failed: REASON              no more clients can come
  worldd: standard output: REASON              a line couldn't be printed
  worldd: tick T acked A image I sessions S batches/s B waiting W room R lasts L
      by --report: T ticks have ended, those up to A were answered, the newest image is of
      tick I, S clients play, W batches wait; R more ticks can end until an image is
      begun, which lasts for L seconds at the speed since the last look
  worldd: lines dropped: COUNT                 nobody read them
Its status is 0; 12 if the log is down, else 11 if images are; 2 for a wrong command
line; else 1. With detailed statuses it is 10 if the listener failed, and 13 if memory,
threads or room on the disk is wanting. After 1 and 13 standard error has `fault CODE`:
  13 no image is open, 14 an image is damaged or lost, 15 the log is damaged or lost, or
  the world is older than its guard, 17 there is no memory, or no thread for the server,
  18 a file is missing, fails or is no ordinary file of its own, the file guard is no
  guard of a world, another program writes this world, the port or the socket
  can't be listened on, or a line couldn't be printed";
